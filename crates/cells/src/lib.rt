// Cells: a value in a row as one 64-bit word, kind × 2^56 + body.
#![tactic(auto)]

ghost use Rattle.std.specs.Prelude.{◌≡◌, ◌<◌, ◌^◌};
ghost use Rattle.std.specs.Int.{w32};
ghost use Rattle.std.proofs.Common.{to_z, of_z};
ghost use Rattle.refusals.specs.Stop.{checked_of};
ghost use Rattle.cells.specs.Cell.{bodies_of, is_cell, reaches_beyond, cell_stop, word_of, ref_of};

use refusals::Refusal;

// A cell's value, its text by start and length: value.rs's ValueRef. Every value of it is a cell of document 01.
#[derive(Clone, Copy)]
pub enum ValueRef {
    Null,
    Int(i32),
    Str(u32, u16),
    Binary,
}

// How many bodies a kind of cell has.
fn bodies(kind: u64) -> u64
    ensures { result ≡ bodies_of kind }
{
    match kind {
        0 => 1,
        1 => 0x1_0000_0000,
        2 => 0x1_0000_0000_0000,
        3 => 1,
        _ => 0,
    }
}

// Whether a word is some cell's; any other is malformed.
pub fn is_cell(word: u64) -> bool
    ensures { result ≡ is_cell word }
{
    word % 0x100_0000_0000_0000 < bodies(word / 0x100_0000_0000_0000)
}

// Whether a word is a text that ends beyond the mark.
pub fn reaches_beyond(word: u64, used: usize) -> bool
    ensures { result ≡ reaches_beyond used word }
{
    if word / 0x100_0000_0000_0000 == 2 {
        (used as u64) < word / 65536 % 0x1_0000_0000 + word % 65536
    } else {
        false
    }
}

// What is wrong with the word that stands at a place: 8, or else 3. An Int, the most frequent cell, is told by one comparison.
pub fn check_cell(word: u64, used: usize, place: usize) -> Result<(), Refusal>
    ensures { checked_of result ≡ cell_stop used word place }
{
    if word / 0x1_0000_0000 == 0x100_0000 {
        return Ok(());
    }
    if !is_cell(word) {
        return Err(Refusal::Malformed(place));
    }
    if reaches_beyond(word, used) {
        return Err(Refusal::TextOutside(place));
    }
    Ok(())
}

// The number of 32 bits in two's complement.
pub fn signed(bits: u64) -> i32
    requires { bits < 2 ^ 32 }
    ensures { result ≡ to_z w32 bits }
{
    (bits as u32).cast_signed()
}

// The 32 bits of a number in two's complement.
pub fn bits(number: i32) -> u64
    ensures { result ≡ of_z w32 number }
{
    number.cast_unsigned() as u64
}

impl From<u64> for ValueRef {
    ghost from_gives = { λ word value. value ≡ ref_of word };

    // The cell of a word. A malformed word is read by its kind and the low bits of its body.
    fn from(word: u64) -> ValueRef {
        match word / 0x100_0000_0000_0000 {
            1 => ValueRef::Int(signed(word % 0x1_0000_0000)),
            2 => ValueRef::Str((word / 65536 % 0x1_0000_0000) as u32, (word % 65536) as u16),
            3 => ValueRef::Binary,
            _ => ValueRef::Null,
        }
    }
}

impl From<ValueRef> for u64 {
    ghost from_gives = { λ value word. word ≡ word_of value };

    // The word of a cell.
    fn from(value: ValueRef) -> u64 {
        match value {
            ValueRef::Null => 0,
            ValueRef::Int(number) => 0x100_0000_0000_0000 + bits(number),
            ValueRef::Str(start, length) => {
                0x200_0000_0000_0000 + (start as u64) * 65536 + (length as u64)
            }
            ValueRef::Binary => 0x300_0000_0000_0000,
        }
    }
}
