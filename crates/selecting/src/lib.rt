// The calls select and delete.
#![tactic(auto)]

ghost use Rattle.std.specs.Prelude.{◌≡◌, length, take};
ghost use Rattle.operators.specs.Operator.{base};
ghost use Rattle.selecting.specs.Select.{SelectIs, DeleteIs};

use refusals::Refusal;

// `select`: all rows are tested before any is written, since a refused call leaves the output alone.
pub fn select(
    columns: &[u64],
    rows: &[u64],
    list: &[u64],
    condition: &[u8],
    text: &mut [u8],
    used: usize,
    out: &mut [u64],
) -> Result<usize, Refusal>
    ensures select_is { SelectIs base columns.now rows.now list.now condition.now
        (take used text.old) (length text.old) used out.old out.new result }
    ensures text_unchanged { (take used text.new ≡ take used text.old) × (length condition.now ≡ 0 → text.new ≡ text.old) }
{
    keeping::check_table(columns, rows, list.len() <= 32, condition, text.len(), used)?;
    let width = columns.len() / 2;
    projecting::check_list(list, width)?;
    let n = rows.len() / width;
    // of a fixed size, since no call may fail for lack of memory
    let mut marks = [0u64; 4096];
    let k = marking::mark_table(condition, rows, width, n, text, used, &mut marks)?;
    keeping::write_kept(rows, width, n, list, &marks, 1, k, out)
}

// `delete`: the other rows are written.
pub fn delete(
    columns: &[u64],
    rows: &[u64],
    condition: &[u8],
    text: &mut [u8],
    used: usize,
    out: &mut [u64],
) -> Result<usize, Refusal>
    ensures delete_is { DeleteIs base columns.now rows.now condition.now
        (take used text.old) (length text.old) used out.old out.new result }
    ensures text_unchanged { (take used text.new ≡ take used text.old) × (length condition.now ≡ 0 → text.new ≡ text.old) }
{
    keeping::check_table(columns, rows, true, condition, text.len(), used)?;
    let width = columns.len() / 2;
    let n = rows.len() / width;
    // of a fixed size, since no call may fail for lack of memory
    let mut marks = [0u64; 4096];
    let k = marking::mark_table(condition, rows, width, n, text, used, &mut marks)?;
    keeping::write_kept(rows, width, n, &rows[..0], &marks, 0, n - k, out)
}
