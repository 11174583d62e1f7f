// What is wrong with the values of new rows, and with the keys of old and new ones.
#![tactic(auto)]

ghost use Rattle.std.specs.Prelude.{◌≡◌, ◌++◌, ◌*◌, ◌≤◌, length};
ghost use Rattle.refusals.specs.Stop.{checked_of};
ghost use Rattle.conditions.specs.Table.{RowSound};
ghost use Rattle.tables.specs.Table.{column_count};
ghost use Rattle.sorting.specs.Sorted.{double_stop, new_stop};
ghost use Rattle.sorting.specs.Rows.{compare_rows, RowsSound};
ghost use Rattle.doubles.specs.Doubles.{values_stop, SearchAsks, FoundEqual};

use cells::ValueRef;
use refusals::Refusal;
use std::cmp::Ordering;

// 13 for the first new cell that may not stand in its column; the place counts the new rows' words.
pub fn check_values(columns: &[u64], stored: &[u8], rows: &[u64]) -> Result<(), Refusal>
    requires { (length columns.now ≡ 2 * column_count columns.now) × (1 ≤ column_count columns.now) × RowSound (length stored.now) rows.now }
    ensures { checked_of result ≡ values_stop columns.now stored.now 0 rows.now }
{
    let width = columns.len() / 2;
    for (i, cell) in rows.iter().enumerate() {
        let rule = columns[2 * (i % width) + 1];
        if !rules::is_valid_value(rule, ValueRef::from(*cell)) {
            return Err(Refusal::NotValid(i));
        }
    }
    Ok(())
}

// The first of so many rows that has the key of a row: a row is left as soon as a key column differs, the search as soon as an equal key is met.
pub fn equal_row(
    columns: &[u64],
    stored: &[u8],
    rows: &[u64],
    n: usize,
    row: &[u64],
) -> Option<usize>
    requires { SearchAsks columns.now (length stored.now) n rows.now row.now }
    ensures { FoundEqual columns.now stored.now rows.now n row.now result }
{
    let width = columns.len() / 2;
    let mut found = None;
    'rows: for i in 0..n {
        for column in 0..width {
            let Ordering::Equal = keys::compare_column(
                columns[2 * column + 1],
                rows[i * width + column],
                row[column],
                stored,
            ) else {
                continue 'rows;
            };
        }
        found = Some(i);
        break 'rows;
    }
    found
}

// 14 for the first old row that has the key of an earlier one. Rows that stand in strict order have none, and one pass tells it.
pub fn check_old(columns: &[u64], stored: &[u8], rows: &[u64], n: usize) -> Result<(), Refusal>
    requires { RowsSound columns.now (length stored.now) n rows.now }
    ensures { checked_of result ≡ double_stop (compare_rows columns.now stored.now rows.now) 0 n }
{
    if sorting::is_ascending(columns, stored, rows, n) {
        return Ok(());
    }
    let width = columns.len() / 2;
    for i in 0..n {
        let start = i * width;
        if equal_row(columns, stored, rows, i, &rows[start..start + width]).is_some() {
            return Err(Refusal::KeyTwice(i));
        }
    }
    Ok(())
}

// For each new row: 11 where an old row has its key, then 12 where an earlier new one has.
pub fn check_new(
    columns: &[u64],
    stored: &[u8],
    old: &[u64],
    m: usize,
    new: &[u64],
    n: usize,
) -> Result<(), Refusal>
    requires { RowsSound columns.now (length stored.now) m old.now × RowsSound columns.now (length stored.now) n new.now }
    ensures { checked_of result ≡ new_stop (compare_rows columns.now stored.now (old.now ++ new.now)) m 0 n }
{
    let width = columns.len() / 2;
    for k in 0..n {
        let start = k * width;
        let row = &new[start..start + width];
        if equal_row(columns, stored, old, m, row).is_some() {
            return Err(Refusal::KeyTaken(k));
        }
        if equal_row(columns, stored, new, k, row).is_some() {
            return Err(Refusal::KeyRepeated(k));
        }
    }
    Ok(())
}
