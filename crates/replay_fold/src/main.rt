// Replays the recorded cases of `fold` (docs/CASES.md, call 19) from standard input.
#![tactic(auto)]

use refusals::Refusal;
use replay::Expected;

// Whether an answer is the one expected; a refusal leaves the mark where it was.
fn agrees(answer: Result<(usize, usize), Refusal>, e: Expected, used: usize) -> bool {
    match answer {
        Ok((n, mark)) => replay::is_answer(e, 0, 0, n, mark),
        Err(r) => replay::is_answer(e, r.number(), r.place(), 0, used),
    }
}

// Whether the call gives the answer, the output and the text expected, with the text above the mark and the output filled with this rubbish.
fn called(
    condition: &[u8],
    stored: &[u8],
    written: &[u8],
    new: &[u8],
    e: Expected,
    text: &mut [u8],
    used: usize,
    out: &mut [u8],
    rubbish: u64,
) -> bool {
    if text.len() < stored.len() {
        return false;
    }
    replay::lend(text, stored, rubbish);
    replay::lend(out, &stored[..0], rubbish);
    let answer = folding::fold(condition, text, used, out);
    agrees(answer, e, used)
        && replay::output_is(out, written, rubbish)
        && replay::text_is(text, stored, new, e.used as usize)
}

// One case.
fn replays(case: &[u8], text: &mut [u8], out: &mut [u8], rubbish: u64) -> bool {
    if case.len() < 4 {
        return false;
    }
    if case[0] != 19 {
        return false;
    }
    let condition = replay::bytes(case, 4);
    let rest = replay::rest_of(case, condition.next);
    let size = rest.lent.size;
    let room = rest.room;
    if text.len() < size {
        return false;
    }
    if out.len() < room {
        return false;
    }
    called(
        replay::part(case, condition),
        replay::part(case, rest.lent.stored),
        replay::part(case, rest.written),
        replay::part(case, rest.new),
        rest.expected,
        &mut text[0..size],
        rest.lent.used,
        &mut out[0..room],
        rubbish,
    )
}

fn main() {
    let mut text = [0u8; 65537];
    let mut out = [0u8; 1100];
    replay::each_case(|case, rubbish| replays(case, &mut text, &mut out, rubbish));
}
