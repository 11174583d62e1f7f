// What every call that is lent tables checks of them, and one row of a table.
#![tactic(auto)]

ghost use Rattle.std.specs.Prelude.{◌≡◌, [], ◌∷◌, ◌+◌, ◌<◌, ◌≤◌, ◌^◌, length};
ghost use Rattle.refusals.specs.Stop.{checked_of};
ghost use Rattle.tables.specs.Table.{is_table, count_stop, are_rows, words_stop, row_at};

use columns::RowNumber;
use refusals::Refusal;

// Whether column words are a table of 1 to 32 columns.
pub fn is_table(columns: &[u64]) -> bool
    ensures { result ≡ is_table columns.now }
{
    if columns.len() % 2 != 0 {
        return false;
    }
    if columns.len() < 2 {
        return false;
    }
    columns.len() <= 64
}

// What is wrong with the count of a table's column words.
pub fn check_count(columns: &[u64]) -> Result<(), Refusal>
    ensures { checked_of result ≡ count_stop (is_table columns.now) }
{
    if !is_table(columns) {
        return Err(Refusal::Malformed(0));
    }
    Ok(())
}

// Whether words are 0 to 4,096 rows of so many cells.
pub fn are_rows(width: usize, rows: &[u64]) -> bool
    requires { 1 ≤ width }
    ensures { result ≡ are_rows width rows.now }
{
    if rows.len() % width != 0 {
        return false;
    }
    rows.len() / width <= 4096
}

// The first fault of the words of one or two column tables and one or two tables of rows, any of which may be empty.
pub fn check_words(
    left: &[u64],
    right: &[u64],
    first: &[u64],
    second: &[u64],
    used: usize,
) -> Result<(), Refusal>
    requires { length left.now + length right.now + length first.now + length second.now < 2 ^ 64 }
    ensures { checked_of result ≡ words_stop used (left.now ∷ right.now ∷ []) (first.now ∷ second.now ∷ []) }
{
    columns::check_columns(left, used, 0)?;
    columns::check_columns(right, used, left.len())?;
    let place = left.len() + right.len();
    checks::check_cells(first, used, place)?;
    checks::check_cells(second, used, place + first.len())
}

// `row`: the part of the rows that is the row of this number, or the empty part.
pub fn row<'a>(rows: &'a [u64], width: usize, number: RowNumber) -> &'a [u64]
    ensures { result.now ≡ row_at rows.now width number.0 }
{
    if width < 1 {
        return &rows[..0];
    }
    if 32 < width {
        return &rows[..0];
    }
    if rows.len() % width != 0 {
        return &rows[..0];
    }
    if rows.len() / width <= number.0 {
        return &rows[..0];
    }
    let start = number.0 * width;
    &rows[start..start + width]
}
