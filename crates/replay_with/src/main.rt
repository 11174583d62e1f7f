// Replays the recorded cases of `with` (docs/CASES.md, call 21) from standard input.
#![tactic(auto)]

use replay::Expected;

// Whether the call gives the answer and the output expected, with the text above the mark and the output filled with this rubbish.
fn called(
    old: &[u8],
    new: &[u8],
    stored: &[u8],
    written: &[u8],
    e: Expected,
    text: &mut [u8],
    used: usize,
    out: &mut [u8],
    rubbish: u64,
) -> bool {
    if text.len() < stored.len() {
        return false;
    }
    replay::lend(text, stored, rubbish);
    replay::lend(out, &stored[..0], rubbish);
    let answer = conjunction::with(old, new, text, used, out);
    replay::is_written(e, answer, used) && replay::output_is(out, written, rubbish)
}

// One case.
fn replays(case: &[u8], text: &mut [u8], out: &mut [u8], rubbish: u64) -> bool {
    if case.len() < 4 {
        return false;
    }
    if case[0] != 21 {
        return false;
    }
    let old = replay::bytes(case, 4);
    let new = replay::bytes(case, old.next);
    let rest = replay::rest_of(case, new.next);
    let size = rest.lent.size;
    let room = rest.room;
    if text.len() < size {
        return false;
    }
    if out.len() < room {
        return false;
    }
    called(
        replay::part(case, old),
        replay::part(case, new),
        replay::part(case, rest.lent.stored),
        replay::part(case, rest.written),
        rest.expected,
        &mut text[0..size],
        rest.lent.used,
        &mut out[0..room],
        rubbish,
    )
}

fn main() {
    let mut text = [0u8; 65537];
    let mut out = [0u8; 1100];
    replay::each_case(|case, rubbish| replays(case, &mut text, &mut out, rubbish));
}
