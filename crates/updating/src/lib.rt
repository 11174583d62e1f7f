// The call update.
#![tactic(auto)]

ghost use Rattle.std.specs.Prelude.{◌≡◌, ◌+◌, ◌*◌, ◌≤◌, length, take};
ghost use Rattle.slices.specs.Splice.{Wrote};
ghost use Rattle.writing.specs.Writing.{WrittenIs};
ghost use Rattle.checks.specs.Check.{short_stop};
ghost use Rattle.operators.specs.Operator.{base};
ghost use Rattle.updating.specs.Update.{UpdateIs};
ghost use Rattle.setting.specs.Asked.{all_words, AllAsked};

use refusals::Refusal;

// Writes all rows in order from the start on, each by its mark, and returns the place after them.
fn write_updated(
    rows: &[u64],
    width: usize,
    n: usize,
    sets: &[u64],
    marks: &[u64],
    out: &mut [u64],
) -> usize
    requires { AllAsked sets.now rows.now marks.now width n × (length rows.now ≤ length out.old) }
    ensures { Wrote out.old 0 (all_words sets.now rows.now width n marks.now) result out.new }
{
    let mut at: usize = 0;
    for i in 0..n {
        let start = i * width;
        at = setting::write_row(&rows[start..start + width], sets, marks[i], out, at);
    }
    at
}

// The same, or 9; the count is that of all rows.
fn write_all(
    rows: &[u64],
    width: usize,
    n: usize,
    sets: &[u64],
    marks: &[u64],
    out: &mut [u64],
) -> Result<usize, Refusal>
    requires { AllAsked sets.now rows.now marks.now width n }
    ensures { WrittenIs out.old out.new result
        (short_stop (length out.old) (length (all_words sets.now rows.now width n marks.now))) n
        (all_words sets.now rows.now width n marks.now) }
{
    if out.len() < rows.len() {
        return Err(Refusal::OutputShort(rows.len()));
    }
    write_updated(rows, width, n, sets, marks, out);
    Ok(n)
}

// `update`: every row is tested as it was, and all before any is written, since a refused call leaves the output alone.
pub fn update(
    columns: &[u64],
    rows: &[u64],
    sets: &[u64],
    condition: &[u8],
    text: &mut [u8],
    used: usize,
    out: &mut [u64],
) -> Result<usize, Refusal>
    ensures update_is { UpdateIs base columns.now rows.now sets.now condition.now
        (take used text.old) (length text.old) used out.old out.new result }
    ensures text_unchanged { (take used text.new ≡ take used text.old) × (length condition.now ≡ 0 → text.new ≡ text.old) }
{
    keeping::check_table(
        columns,
        rows,
        setting::are_sets(sets),
        condition,
        text.len(),
        used,
    )?;
    setting::check_sets(columns, sets, used)?;
    let width = columns.len() / 2;
    let n = rows.len() / width;
    // of a fixed size, since no call may fail for lack of memory
    let mut marks = [0u64; 4096];
    marking::mark_table(condition, rows, width, n, text, used, &mut marks)?;
    write_all(rows, width, n, sets, &marks, out)
}
