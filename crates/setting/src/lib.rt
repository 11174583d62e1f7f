// The sets of an update: checked, and applied to a row.
#![tactic(auto)]

ghost use Rattle.std.specs.Prelude.{◌≡◌, List, ℕ, ◌+◌, ◌*◌, ◌≤◌, length};
ghost use Rattle.slices.specs.Splice.{Wrote};
ghost use Rattle.refusals.specs.Stop.{checked_of};
ghost use Rattle.tables.specs.Table.{column_count};
ghost use Rattle.setting.specs.Sets.{are_sets, sets_stop, applied};
ghost use Rattle.setting.specs.Asked.{set_stop, Within, row_after};

use cells::ValueRef;
use refusals::Refusal;

// Whether words are a column number and a cell a set, at most 64 sets.
pub fn are_sets(sets: &[u64]) -> bool
    ensures { result ≡ are_sets sets.now }
{
    if sets.len() % 2 != 0 {
        return false;
    }
    sets.len() / 2 <= 64
}

// What is wrong with one set, whatever text the mark bounds.
pub fn check_set(
    columns: &[u64],
    column: u64,
    cell: u64,
    used: usize,
    place: usize,
) -> Result<(), Refusal>
    requires { length columns.now ≡ 2 * column_count columns.now }
    ensures { (stored : List ℕ) → length stored ≡ used → checked_of result ≡ set_stop used stored columns.now place column cell }
{
    if (columns.len() / 2) as u64 <= column {
        return Err(Refusal::NoSuchColumn(place));
    }
    cells::check_cell(cell, used, place)?;
    let rule = columns[2 * column as usize + 1];
    if !rules::is_valid_value(rule, ValueRef::from(cell)) {
        return Err(Refusal::NotValid(place));
    }
    Ok(())
}

// What is wrong with the sets in order.
pub fn check_sets(columns: &[u64], sets: &[u64], used: usize) -> Result<(), Refusal>
    requires { length columns.now ≡ 2 * column_count columns.now }
    ensures { (stored : List ℕ) → length stored ≡ used → checked_of result ≡ sets_stop used stored columns.now 0 sets.now }
{
    for k in 0..sets.len() / 2 {
        check_set(columns, sets[2 * k], sets[2 * k + 1], used, k)?;
    }
    Ok(())
}

// Applies the sets to a row in order.
pub fn apply_sets(sets: &[u64], row: &mut [u64])
    requires { Within (length row.old) sets.now }
    ensures { row.new ≡ applied sets.now row.old }
{
    for k in 0..sets.len() / 2 {
        row[sets[2 * k] as usize] = sets[2 * k + 1];
    }
}

// Writes a row from the place at on, with the sets applied where its mark is 1, and returns the place after it.
pub fn write_row(row: &[u64], sets: &[u64], mark: u64, out: &mut [u64], at: usize) -> usize
    requires { Within (length row.now) sets.now × (at + length row.now ≤ length out.old) }
    ensures { Wrote out.old at (row_after sets.now mark row.now) result out.new }
{
    let end = slices::copy(row, out, at);
    if mark != 1 {
        return end;
    }
    apply_sets(sets, &mut out[at..end]);
    end
}
