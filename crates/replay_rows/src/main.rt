// Replays the recorded cases of select, delete and update (docs/CASES.md, calls 25, 28 and 29) from standard input.
#![tactic(auto)]

ghost use Rattle.std.specs.Prelude.{◌+◌, ◌≤◌, length};

use refusals::Refusal;
use replay::Text;

// Whether an answer is the one expected at this place of the case, the text below the mark as it was, and the output as expected.
fn left_so(
    case: &[u8],
    lent: Text,
    answer: Result<usize, Refusal>,
    text: &[u8],
    out: &[u64],
    rubbish: u64,
) -> bool
    requires { (lent.stored.start + lent.stored.count ≤ length case.now) × (lent.stored.next ≤ length case.now) }
{
    let stored = replay::part(case, lent.stored);
    let outcome = replay::outcome_of(case, lent.stored.next, out, rubbish);
    outcome.written
        && replay::keeps(text, stored)
        && replay::is_written(outcome.expected, answer, lent.used)
}

// The call of this number.
fn called(
    call: u8,
    columns: &[u64],
    rows: &[u64],
    list: &[u64],
    condition: &[u8],
    text: &mut [u8],
    used: usize,
    out: &mut [u64],
) -> Result<usize, Refusal> {
    match call {
        25 => selecting::select(columns, rows, list, condition, text, used, out),
        28 => selecting::delete(columns, rows, condition, text, used, out),
        _ => updating::update(columns, rows, list, condition, text, used, out),
    }
}

// Whether the call leaves what is expected, with the text above the mark and the output filled with this rubbish.
fn agrees(
    case: &[u8],
    lent: Text,
    columns: &[u64],
    rows: &[u64],
    list: &[u64],
    condition: &[u8],
    text: &mut [u8],
    out: &mut [u64],
    rubbish: u64,
) -> bool
    requires { (1 ≤ length case.now) × (lent.stored.start + lent.stored.count ≤ length case.now) × (lent.stored.next ≤ length case.now) }
{
    let stored = replay::part(case, lent.stored);
    if text.len() < stored.len() {
        return false;
    }
    replay::lend(text, stored, rubbish);
    replay::lend_words(out, rubbish);
    let answer = called(
        case[0], columns, rows, list, condition, text, lent.used, out,
    );
    left_so(case, lent, answer, text, out, rubbish)
}

// One case from its list or sets on; delete has none.
fn replays_from(
    case: &[u8],
    columns: &[u64],
    rows: &[u64],
    list: &[u64],
    at: usize,
    text: &mut [u8],
    out: &mut [u64],
    rubbish: u64,
) -> bool
    requires { (1 ≤ length case.now) × (at ≤ length case.now) }
{
    let condition = replay::bytes(case, at);
    let lent = replay::lent(case, condition.next);
    let size = lent.size;
    let room = replay::four(case, lent.stored.next) as usize;
    if text.len() < size {
        return false;
    }
    if out.len() < room {
        return false;
    }
    agrees(
        case,
        lent,
        columns,
        rows,
        list,
        replay::part(case, condition),
        &mut text[0..size],
        &mut out[0..room],
        rubbish,
    )
}

// One case.
fn replays(case: &[u8], text: &mut [u8], out: &mut [u64], rubbish: u64) -> bool {
    if case.len() < 4 {
        return false;
    }
    let mut one = [0u64; 68];
    let columns = replay::words(case, 4, &mut one);
    let a = columns.count;
    let mut two = [0u64; 4100];
    let rows = replay::words(case, columns.next, &mut two);
    let b = rows.count;
    if case[0] == 28 {
        return replays_from(
            case,
            &one[0..a],
            &two[0..b],
            &[],
            rows.next,
            text,
            out,
            rubbish,
        );
    }
    if case[0] != 25 && case[0] != 29 {
        return false;
    }
    let mut three = [0u64; 140];
    let list = replay::words(case, rows.next, &mut three);
    let c = list.count;
    replays_from(
        case,
        &one[0..a],
        &two[0..b],
        &three[0..c],
        list.next,
        text,
        out,
        rubbish,
    )
}

fn main() {
    let mut text = [0u8; 65537];
    let mut out = [0u64; 4200];
    replay::each_case(|case, rubbish| replays(case, &mut text, &mut out, rubbish));
}
