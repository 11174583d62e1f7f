// A row's listed columns, checked and written.
#![tactic(auto)]

ghost use Rattle.std.specs.Prelude.{◌≡◌, List, ℕ, ◌+◌, ◌≤◌, length};
ghost use Rattle.slices.specs.Splice.{Wrote};
ghost use Rattle.refusals.specs.Stop.{never, checked_of};
ghost use Rattle.projecting.specs.Project.{projected, list_stop, marked_words, RowsAsked};

use refusals::Refusal;

// What is wrong with a list of columns.
pub fn check_list(list: &[u64], width: usize) -> Result<(), Refusal>
    ensures { checked_of result ≡ list_stop width 0 list.now }
{
    for (i, column) in list.iter().enumerate() {
        if width as u64 <= *column {
            return Err(Refusal::NoSuchColumn(i));
        }
    }
    Ok(())
}

// How many words a row of this width takes once it is projected.
pub fn projected_width(list: &[u64], width: usize) -> usize
    ensures { (row : List ℕ) → length row ≡ width → length (projected list.now row) ≡ result }
{
    if list.len() == 0 {
        return width;
    }
    list.len()
}

// Writes a row's listed columns from the place at on, and returns the place after them.
pub fn project(row: &[u64], list: &[u64], out: &mut [u64], at: usize) -> usize
    requires { (list_stop (length row.now) 0 list.now ≡ never) × (at + length (projected list.now row.now) ≤ length out.old) }
    ensures { Wrote out.old at (projected list.now row.now) result out.new }
{
    if list.len() == 0 {
        return slices::copy(row, out, at);
    }
    for (i, column) in list.iter().enumerate() {
        out[at + i] = row[*column as usize];
    }
    at + list.len()
}

// Writes the rows that have this mark, projected, one after another from the start on, and returns the place after them.
pub fn write_rows(
    rows: &[u64],
    width: usize,
    n: usize,
    list: &[u64],
    marks: &[u64],
    mark: u64,
    out: &mut [u64],
) -> usize
    requires { RowsAsked list.now rows.now marks.now width n × (length (marked_words list.now rows.now width n marks.now mark) ≤ length out.old) }
    ensures { Wrote out.old 0 (marked_words list.now rows.now width n marks.now mark) result out.new }
{
    let mut at: usize = 0;
    for i in 0..n {
        if marks[i] != mark {
            continue;
        }
        let start = i * width;
        at = project(&rows[start..start + width], list, out, at);
    }
    at
}
