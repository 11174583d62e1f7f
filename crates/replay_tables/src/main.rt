// Replays the recorded cases of tables (docs/CASES.md, calls 16, 17, 23 and 24) from standard input.
#![tactic(auto)]

ghost use Rattle.std.specs.Prelude.{◌≡◌, ◌+◌, ◌≤◌, length};

use columns::RowNumber;
use refusals::Refusal;
use replay::{Expected, Text};

// An accepted answer, with the mark where it was.
fn accepted(e: Expected, used: usize) -> bool {
    e.number == 0 && e.place == 0 && e.used == used as u64
}

// Whether `row` gives the words expected, which stand at this index of the rows; the empty part has index 0.
fn row_is(rows: &[u64], width: usize, number: usize, index: usize, res: &[u64]) -> bool {
    if rows.len() < index {
        return false;
    }
    if rows.len() - index < res.len() {
        return false;
    }
    let end = index + res.len();
    let part = tables::row(rows, width, RowNumber(number));
    if part.len() == 0 {
        return res.len() == 0 && index == 0;
    }
    replay::same_words(part, res) && replay::same_words(part, &rows[index..end])
}

// Call 16: one row.
fn row_read(case: &[u8]) -> bool {
    if case.len() < 4 {
        return false;
    }
    let mut space = [0u64; 4100];
    let rows = replay::words(case, 4, &mut space);
    let count = rows.count;
    let width = replay::eight(case, rows.next) as usize;
    let number = replay::eight(case, rows.next + 8) as usize;
    let at = replay::after(case, rows.next, 16);
    let e = replay::answer(case, at);
    let mut place = [0u64; 64];
    let result = replay::words(case, replay::after(case, at, 32), &mut place);
    let long = result.count;
    accepted(e, 0)
        && row_is(
            &space[..count],
            width,
            number,
            e.value as usize,
            &place[..long],
        )
}

// Whether `earlier` gives the row expected: none, the first or the second.
fn earlier_is<'a>(
    columns: &[u64],
    text: &[u8],
    used: usize,
    first: &'a [u64],
    second: &'a [u64],
    value: u64,
) -> bool {
    let part = keys::earlier(columns, text, used, first, second);
    if part.len() == 0 {
        return value == 0;
    }
    match value {
        1 => replay::same_words(part, first),
        2 => replay::same_words(part, second),
        _ => false,
    }
}

// Whether `earlier` gives the row expected, with the text above the mark filled with this rubbish.
fn earlier_called<'a>(
    columns: &[u64],
    stored: &[u8],
    first: &'a [u64],
    second: &'a [u64],
    e: Expected,
    text: &mut [u8],
    used: usize,
    rubbish: u64,
) -> bool
    ensures { length text.new ≡ length text.old }
{
    if text.len() < stored.len() {
        return false;
    }
    replay::lend(text, stored, rubbish);
    accepted(e, used) && earlier_is(columns, text, used, first, second, e.value)
}

// Call 17: the earlier of two rows.
fn earlier_given(case: &[u8], text: &mut [u8], rubbish: u64) -> bool
    ensures { length text.new ≡ length text.old }
{
    if case.len() < 4 {
        return false;
    }
    let mut space = [0u64; 68];
    let columns = replay::words(case, 4, &mut space);
    let count = columns.count;
    let lent = replay::lent(case, columns.next);
    let size = lent.size;
    let mut one = [0u64; 36];
    let first = replay::words(case, lent.stored.next, &mut one);
    let a = first.count;
    let mut two = [0u64; 36];
    let second = replay::words(case, first.next, &mut two);
    let b = second.count;
    let e = replay::answer(case, second.next);
    if text.len() < size {
        return false;
    }
    earlier_called(
        &space[..count],
        replay::part(case, lent.stored),
        &one[..a],
        &two[..b],
        e,
        &mut text[..size],
        lent.used,
        rubbish,
    )
}

// Whether these bytes stand from one place to another.
fn stands(text: &[u8], from: usize, to: usize, bytes: &[u8]) -> bool {
    if to < from {
        return false;
    }
    if text.len() < to {
        return false;
    }
    slices::equal_bytes(&text[from..to], bytes)
}

// Whether an answer is the one expected, and the new text stands at the old mark.
fn agrees(
    answer: Result<(usize, usize), Refusal>,
    e: Expected,
    text: &[u8],
    used: usize,
    new: &[u8],
) -> bool {
    match answer {
        Ok((count, top)) => {
            replay::is_answer(e, 0, 0, count, top) && stands(text, used, top, new)
        }
        Err(r) => replay::is_answer(e, r.number(), r.place(), 0, used),
    }
}

// Whether all that a call left is as the case has it, where the length of the output stands at this place.
fn left_so(
    case: &[u8],
    at: usize,
    answer: Result<(usize, usize), Refusal>,
    text: &[u8],
    used: usize,
    out: &[u64],
    rubbish: u64,
) -> bool
    requires { at ≤ length case.now }
{
    let outcome = replay::outcome_of(case, at, out, rubbish);
    let new = replay::part(case, replay::bytes(case, outcome.next));
    outcome.written && agrees(answer, outcome.expected, text, used, new)
}

// The columns of a left join, or else of an inner one.
fn joined(
    outer: bool,
    left_name: &[u8],
    left: &[u64],
    right_name: &[u8],
    right: &[u64],
    text: &mut [u8],
    used: usize,
    out: &mut [u64],
) -> Result<(usize, usize), Refusal>
    ensures { (length text.new ≡ length text.old) × (length out.new ≡ length out.old) }
{
    if outer {
        return heads::left_join_columns(left_name, left, right_name, right, text, used, out);
    }
    heads::inner_join_columns(left_name, left, right_name, right, text, used, out)
}

// Whether the call leaves what is expected, with the text above the mark and the output filled with this rubbish.
fn called(
    case: &[u8],
    lent: Text,
    left_name: &[u8],
    left: &[u64],
    right_name: &[u8],
    right: &[u64],
    text: &mut [u8],
    out: &mut [u64],
    rubbish: u64,
) -> bool
    requires { (1 ≤ length case.now) × (lent.stored.start + lent.stored.count ≤ length case.now) × (lent.stored.next ≤ length case.now) }
    ensures { (length text.new ≡ length text.old) × (length out.new ≡ length out.old) }
{
    let stored = replay::part(case, lent.stored);
    if text.len() < stored.len() {
        return false;
    }
    replay::lend(text, stored, rubbish);
    replay::lend_words(out, rubbish);
    let outer = case[0] == 24;
    let used = lent.used;
    let answer = joined(outer, left_name, left, right_name, right, text, used, out);
    let at = lent.stored.next;
    replay::keeps(text, stored) && left_so(case, at, answer, text, used, out, rubbish)
}

// Calls 23 and 24: the columns of a join.
fn columns_joined(case: &[u8], text: &mut [u8], out: &mut [u64], rubbish: u64) -> bool
    ensures { (length text.new ≡ length text.old) × (length out.new ≡ length out.old) }
{
    if case.len() < 4 {
        return false;
    }
    let left_name = replay::bytes(case, 4);
    let mut one = [0u64; 68];
    let left = replay::words(case, left_name.next, &mut one);
    let a = left.count;
    let right_name = replay::bytes(case, left.next);
    let mut two = [0u64; 68];
    let right = replay::words(case, right_name.next, &mut two);
    let b = right.count;
    let lent = replay::lent(case, right.next);
    let size = lent.size;
    let room = replay::four(case, lent.stored.next) as usize;
    if text.len() < size {
        return false;
    }
    if out.len() < room {
        return false;
    }
    called(
        case,
        lent,
        replay::part(case, left_name),
        &one[..a],
        replay::part(case, right_name),
        &two[..b],
        &mut text[..size],
        &mut out[..room],
        rubbish,
    )
}

// One case.
fn replays(case: &[u8], text: &mut [u8], out: &mut [u64], rubbish: u64) -> bool
    ensures { (length text.new ≡ length text.old) × (length out.new ≡ length out.old) }
{
    if case.len() < 4 {
        return false;
    }
    match case[0] {
        16 => row_read(case),
        17 => earlier_given(case, text, rubbish),
        23 | 24 => columns_joined(case, text, out, rubbish),
        _ => false,
    }
}

fn main() {
    let mut text = [0u8; 65537];
    let mut out = [0u64; 100];
    replay::each_case(|case, rubbish| replays(case, &mut text, &mut out, rubbish));
}
