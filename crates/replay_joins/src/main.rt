// Replays the recorded cases of the joins and of a select over a join (docs/CASES.md, calls 26, 27, 31 and 32) from standard input.
#![tactic(auto)]

ghost use Rattle.std.specs.Prelude.{◌≡◌, ◌+◌, ◌≤◌, length};

use refusals::Refusal;
use replay::Text;

// A call: whether its join is a left one, whether a select follows, and where its parts start in the case. Only a select has names, a list and a
// condition of its own.
#[derive(Clone, Copy)]
struct Call {
    outer: bool,
    selects: bool,
    left_name: usize,
    left_columns: usize,
    left: usize,
    right_name: usize,
    right_columns: usize,
    right: usize,
    on: usize,
    list: usize,
    condition: usize,
    text: usize,
}

// Whether an answer is the one expected at this place of the case, the text up to the mark as expected, and the output too.
fn left_so(
    case: &[u8],
    lent: Text,
    answer: Result<(usize, usize), Refusal>,
    text: &[u8],
    out: &[u64],
    rubbish: u64,
) -> bool
    requires { (lent.stored.start + lent.stored.count ≤ length case.now) × (lent.stored.next ≤ length case.now) }
{
    let stored = replay::part(case, lent.stored);
    let outcome = replay::outcome_of(case, lent.stored.next, out, rubbish);
    let e = outcome.expected;
    let new = replay::part(case, replay::bytes(case, outcome.next));
    if !outcome.written {
        return false;
    }
    let used = lent.used;
    match answer {
        Ok((n, mark)) => {
            replay::is_answer(e, 0, 0, n, mark) && replay::text_is(text, stored, new, mark)
        }
        Err(r) => {
            replay::is_answer(e, r.number(), r.place(), 0, used)
                && replay::text_is(text, stored, new, used)
        }
    }
}

// The bytes that stand at a place.
fn bytes_at(case: &[u8], at: usize) -> &[u8] {
    let place = replay::after(case, 0, at);
    replay::part(case, replay::bytes(case, place))
}

// How many words stand at a place, put at the start of words.
fn words_at(case: &[u8], at: usize, words: &mut [u64]) -> usize
    ensures { (result ≤ length words.new) × (length words.new ≡ length words.old) }
{
    let place = replay::after(case, 0, at);
    let field = replay::words(case, place, words);
    field.count
}

// The columns of a left join, or else of an inner one.
fn head(
    case: &[u8],
    call: Call,
    text: &mut [u8],
    used: usize,
    out: &mut [u64],
) -> Result<(usize, usize), Refusal> {
    let left_name = bytes_at(case, call.left_name);
    let right_name = bytes_at(case, call.right_name);
    let mut one = [0u64; 68];
    let a = words_at(case, call.left_columns, &mut one);
    let left = &one[0..a];
    let mut two = [0u64; 68];
    let b = words_at(case, call.right_columns, &mut two);
    let right = &two[0..b];
    if call.outer {
        return heads::left_join_columns(left_name, left, right_name, right, text, used, out);
    }
    heads::inner_join_columns(left_name, left, right_name, right, text, used, out)
}

// The rows of a left join, or else of an inner one.
fn joined(
    case: &[u8],
    call: Call,
    text: &mut [u8],
    used: usize,
    out: &mut [u64],
) -> Result<usize, Refusal> {
    let on = bytes_at(case, call.on);
    let mut one = [0u64; 68];
    let a = words_at(case, call.left_columns, &mut one);
    let mut two = [0u64; 4100];
    let b = words_at(case, call.left, &mut two);
    let mut three = [0u64; 68];
    let c = words_at(case, call.right_columns, &mut three);
    let mut four = [0u64; 4100];
    let d = words_at(case, call.right, &mut four);
    if call.outer {
        return joins::left_join(
            &one[0..a],
            &two[0..b],
            &three[0..c],
            &four[0..d],
            on,
            text,
            used,
            out,
        );
    }
    joins::inner_join(
        &one[0..a],
        &two[0..b],
        &three[0..c],
        &four[0..d],
        on,
        text,
        used,
        out,
    )
}

// Select over the first so many joined rows, whose columns are these.
fn select_from(
    columns: &[u64],
    rows: &[u64],
    count: usize,
    list: &[u64],
    condition: &[u8],
    text: &mut [u8],
    mark: usize,
    out: &mut [u64],
) -> Result<(usize, usize), Refusal> {
    let width = columns.len() / 2;
    if 64 < width {
        return Err(Refusal::OutputShort(0));
    }
    if 9000 < count {
        return Err(Refusal::OutputShort(0));
    }
    let end = count * width;
    if rows.len() < end {
        return Err(Refusal::OutputShort(0));
    }
    let count = selecting::select(columns, &rows[0..end], list, condition, text, mark, out)?;
    Ok((count, mark))
}

// Rows and select in turn, where the joined columns are these.
fn select_rows(
    case: &[u8],
    call: Call,
    columns: &[u64],
    text: &mut [u8],
    mark: usize,
    out: &mut [u64],
) -> Result<(usize, usize), Refusal> {
    let mut rows = [0u64; 9000];
    let count = joined(case, call, text, mark, &mut rows)?;
    let mut space = [0u64; 40];
    let named = words_at(case, call.list, &mut space);
    let list = &space[0..named];
    let condition = bytes_at(case, call.condition);
    select_from(columns, &rows, count, list, condition, text, mark, out)
}

// Columns, rows and select in turn, each on what the one before left; the first refusal ends it.
fn select_joined(
    case: &[u8],
    call: Call,
    text: &mut [u8],
    used: usize,
    out: &mut [u64],
) -> Result<(usize, usize), Refusal> {
    let mut space = [0u64; 64];
    let (words, mark) = head(case, call, text, used, &mut space)?;
    if 64 < words {
        return Err(Refusal::OutputShort(0));
    }
    select_rows(case, call, &space[0..words], text, mark, out)
}

// What the call of a case gives.
fn called(
    case: &[u8],
    call: Call,
    text: &mut [u8],
    used: usize,
    out: &mut [u64],
) -> Result<(usize, usize), Refusal> {
    if call.selects {
        return select_joined(case, call, text, used, out);
    }
    let count = joined(case, call, text, used, out)?;
    Ok((count, used))
}

// Whether the call leaves what is expected, with the text above the mark and the output filled with this rubbish.
fn agrees(
    case: &[u8],
    call: Call,
    lent: Text,
    text: &mut [u8],
    out: &mut [u64],
    rubbish: u64,
) -> bool
    requires { (lent.stored.start + lent.stored.count ≤ length case.now) × (lent.stored.next ≤ length case.now) }
{
    let stored = replay::part(case, lent.stored);
    if text.len() < stored.len() {
        return false;
    }
    replay::lend(text, stored, rubbish);
    replay::lend_words(out, rubbish);
    let answer = called(case, call, text, lent.used, out);
    left_so(case, lent, answer, text, out, rubbish)
}

// Where the slice of bytes at a place ends, or the place itself where the case has none.
fn past_bytes(case: &[u8], at: usize, has: bool) -> usize
    requires { at ≤ length case.now }
    ensures { result ≤ length case.now }
{
    if !has {
        return at;
    }
    let field = replay::bytes(case, at);
    field.next
}

// Where the slice of words at a place ends, or the place itself where the case has none.
fn past_words(case: &[u8], at: usize, has: bool) -> usize
    requires { at ≤ length case.now }
    ensures { result ≤ length case.now }
{
    if !has {
        return at;
    }
    let count = replay::four(case, at) as usize;
    replay::after(case, replay::after(case, at, 4), count * 8)
}

// The call of this number, whose parts follow each other from the fourth byte of the case on.
fn call_of(case: &[u8], number: u8) -> Call
    requires { 4 ≤ length case.now }
    ensures { result.text ≤ length case.now }
{
    let selects = 31 <= number;
    let left_columns = past_bytes(case, 4, selects);
    let left = past_words(case, left_columns, true);
    let right_name = past_words(case, left, true);
    let right_columns = past_bytes(case, right_name, selects);
    let right = past_words(case, right_columns, true);
    let on = past_words(case, right, true);
    let list = past_bytes(case, on, true);
    let condition = past_words(case, list, selects);
    Call {
        outer: number == 27 || number == 32,
        selects,
        left_name: 4,
        left_columns,
        left,
        right_name,
        right_columns,
        right,
        on,
        list,
        condition,
        text: past_bytes(case, condition, selects),
    }
}

// One case.
fn replays(case: &[u8], text: &mut [u8], out: &mut [u64], rubbish: u64) -> bool {
    if case.len() < 4 {
        return false;
    }
    let number = case[0];
    if number != 26 && number != 27 && number != 31 && number != 32 {
        return false;
    }
    let call = call_of(case, number);
    let lent = replay::lent(case, call.text);
    let size = lent.size;
    let room = replay::four(case, lent.stored.next) as usize;
    if text.len() < size {
        return false;
    }
    if out.len() < room {
        return false;
    }
    agrees(
        case,
        call,
        lent,
        &mut text[0..size],
        &mut out[0..room],
        rubbish,
    )
}

fn main() {
    let mut text = [0u8; 65537];
    let mut out = [0u64; 8200];
    replay::each_case(|case, rubbish| replays(case, &mut text, &mut out, rubbish));
}
