// A table's columns: checking their words, and finding one by its name.
#![tactic(auto)]

ghost use Rattle.std.specs.Prelude.{◌≡◌, ◌+◌, ◌<◌, ◌^◌, length};
ghost use Rattle.refusals.specs.Stop.{checked_of, never};
ghost use Rattle.columns.specs.Column.{name_stop, column_stop, columns_stop, column_named, found_of};

use refusals::Refusal;

// A row's number: never passed for a column's.
#[derive(Clone, Copy)]
pub struct RowNumber(pub usize);

// A column's number: never passed for a row's.
#[derive(Clone, Copy)]
pub struct ColumnNumber(pub usize);

// What is wrong with a column's name word: 8 if it is no text cell, else 3 for its place or its length.
pub fn check_name(word: u64, used: usize, place: usize) -> Result<(), Refusal>
    ensures { checked_of result ≡ name_stop used word place }
{
    if !cells::is_cell(word) {
        return Err(Refusal::Malformed(place));
    }
    if word / 0x100_0000_0000_0000 != 2 {
        return Err(Refusal::Malformed(place));
    }
    if cells::reaches_beyond(word, used) {
        return Err(Refusal::TextOutside(place));
    }
    if word % 65536 < 1 {
        return Err(Refusal::TextOutside(place));
    }
    if 255 < word % 65536 {
        return Err(Refusal::TextOutside(place));
    }
    Ok(())
}

// What is wrong with a column's two words.
pub fn check_column(name: u64, rule: u64, used: usize, place: usize) -> Result<(), Refusal>
    requires { place + 1 < 2 ^ 64 }
    ensures { checked_of result ≡ column_stop used name rule place }
{
    check_name(name, used, place)?;
    if !rules::is_rule(rule) {
        return Err(Refusal::Malformed(place + 1));
    }
    Ok(())
}

// What is wrong with a table's column words, the first of which has this place.
pub fn check_columns(columns: &[u64], used: usize, place: usize) -> Result<(), Refusal>
    requires { place + length columns.now < 2 ^ 64 }
    ensures { checked_of result ≡ columns_stop used place columns.now }
{
    for i in 0..columns.len() / 2 {
        check_column(columns[2 * i], columns[2 * i + 1], used, place + 2 * i)?;
    }
    Ok(())
}

// The first column of a name, in columns that were checked.
pub fn find_column(columns: &[u64], stored: &[u8], name: &[u8]) -> Option<ColumnNumber>
    requires { columns_stop (length stored.now) 0 columns.now ≡ never }
    ensures { found_of result ≡ column_named stored.now columns.now name.now }
{
    for number in 0..columns.len() / 2 {
        let word = columns[2 * number];
        let start = (word / 65536 % 0x1_0000_0000) as usize;
        let end = start + (word % 65536) as usize;
        if slices::equal_bytes(&stored[start..end], name) {
            return Some(ColumnNumber(number));
        }
    }
    None
}
