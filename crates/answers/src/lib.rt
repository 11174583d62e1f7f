// What the exported calls return: one struct of four numbers for the answer of every call that gives a refusal number.
#![tactic(auto)]

ghost use Rattle.std.specs.Prelude.{◌≡◌};
ghost use Rattle.keys.specs.Key.{earlier_of};
ghost use Rattle.answers.specs.Answer.{accepted, refused_with, of_written, of_evaluated, of_moved};
ghost use Rattle.answers.specs.Row.{PartIs};
ghost use Rattle.answers.specs.Earlier.{which_of, which_earlier, handed};

use columns::RowNumber;
use refusals::Refusal;
use std::cmp::Ordering;

// The refusal's number and place, both 0 where the call was accepted; its value, 0 where it was refused; the mark after it.
#[repr(C)]
#[derive(Clone, Copy)]
pub struct Answer {
    pub number: u64,
    pub place: u64,
    pub value: u64,
    pub used: u64,
}

// Where a row lies in the caller's rows, in words; both are 0 for the empty part.
#[repr(C)]
#[derive(Clone, Copy)]
pub struct Part {
    pub start: u64,
    pub length: u64,
}

// A refused call: the mark is as lent.
fn refused(r: Refusal, used: usize) -> Answer
    ensures { result ≡ refused_with r used }
{
    Answer {
        number: r.number(),
        place: r.place() as u64,
        value: 0,
        used: used as u64,
    }
}

// An accepted call: its value, and the mark after it.
fn accepted(value: u64, used: usize) -> Answer
    ensures { result ≡ accepted value used }
{
    Answer {
        number: 0,
        place: 0,
        value,
        used: used as u64,
    }
}

// The answer of a call that writes and leaves the mark alone.
pub fn of_written(written: Result<usize, Refusal>, used: usize) -> Answer
    ensures { result ≡ of_written used written }
{
    match written {
        Err(r) => refused(r, used),
        Ok(n) => accepted(n as u64, used),
    }
}

// The answer of `evaluate`.
pub fn of_evaluated(evaluated: Result<u64, Refusal>, used: usize) -> Answer
    ensures { result ≡ of_evaluated used evaluated }
{
    match evaluated {
        Err(r) => refused(r, used),
        Ok(word) => accepted(word, used),
    }
}

// The answer of the calls that move the mark, `fold` and those that join column tables.
pub fn of_moved(moved: Result<(usize, usize), Refusal>, used: usize) -> Answer
    ensures { result ≡ of_moved used moved }
{
    match moved {
        Err(r) => refused(r, used),
        Ok((n, mark)) => accepted(n as u64, mark),
    }
}

// Where `row`'s part lies.
pub fn part_of(rows: &[u64], width: usize, number: usize) -> Part
    ensures { PartIs rows.now width number result }
{
    let n = tables::row(rows, width, RowNumber(number)).len();
    if n == 0 {
        return Part {
            start: 0,
            length: 0,
        };
    }
    Part {
        start: (number * width) as u64,
        length: n as u64,
    }
}

// The number of the row that comes first.
fn which_of(order: Ordering) -> u64
    ensures { result ≡ which_of order }
{
    match order {
        Ordering::Greater => 2,
        _ => 1,
    }
}

// The number of the row that `earlier` hands back, 0 for the empty part.
pub fn which_earlier(
    columns: &[u64],
    text: &[u8],
    used: usize,
    first: &[u64],
    second: &[u64],
) -> u64
    ensures value { result ≡ which_earlier columns.now text.now used first.now second.now }
    ensures second_value { earlier_of columns.now text.now used first.now second.now ≡ handed result first.now second.now }
{
    let Ok(()) = keys::check_rows(columns, text.len(), used, first, second) else {
        return 0;
    };
    which_of(keys::compare_keys(columns, &text[..used], first, second))
}
