// What every call on one table looks at first, and the rows of one mark written.
#![tactic(auto)]

ghost use Rattle.std.specs.Prelude.{◌≡◌, length};
ghost use Rattle.refusals.specs.Stop.{checked_of};
ghost use Rattle.writing.specs.Writing.{WrittenIs};
ghost use Rattle.testing.specs.Test.{room_for};
ghost use Rattle.projecting.specs.Project.{marked_words};
ghost use Rattle.keeping.specs.Table.{table_stop};
ghost use Rattle.checks.specs.Check.{short_stop};
ghost use Rattle.keeping.specs.Kept.{KeptAsks};

use refusals::Refusal;

// The room above the mark that a condition needs.
pub fn room_for(condition: &[u8]) -> usize
    ensures { result ≡ room_for condition.now }
{
    if condition.len() == 0 {
        return 0;
    }
    32768
}

// What every call on one table looks at first; `counts` says whether what else the call counts is within its bound.
pub fn check_table(
    columns: &[u64],
    rows: &[u64],
    counts: bool,
    condition: &[u8],
    size: usize,
    used: usize,
) -> Result<(), Refusal>
    ensures { checked_of result ≡ table_stop counts condition.now columns.now rows.now size used }
{
    checks::check_room(size, used, room_for(condition))?;
    if !tables::is_table(columns) {
        return Err(Refusal::Malformed(0));
    }
    if !tables::are_rows(columns.len() / 2, rows) {
        return Err(Refusal::Malformed(0));
    }
    if !counts {
        return Err(Refusal::Malformed(0));
    }
    tables::check_words(columns, &columns[..0], rows, &rows[..0], used)
}

// Writes the rows that have this mark, of which there are so many, projected; or 9.
pub fn write_kept(
    rows: &[u64],
    width: usize,
    n: usize,
    list: &[u64],
    marks: &[u64],
    mark: u64,
    count: usize,
    out: &mut [u64],
) -> Result<usize, Refusal>
    requires { KeptAsks list.now rows.now marks.now width n mark count }
    ensures { WrittenIs out.old out.new result
        (short_stop (length out.old) (length (marked_words list.now rows.now width n marks.now mark))) count
        (marked_words list.now rows.now width n marks.now mark) }
{
    let needed = count * projecting::projected_width(list, width);
    if out.len() < needed {
        return Err(Refusal::OutputShort(needed));
    }
    projecting::write_rows(rows, width, n, list, marks, mark, out);
    Ok(count)
}
