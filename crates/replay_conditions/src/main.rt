// Replays the recorded cases of evaluation (docs/CASES.md, call 18) from standard input.
#![tactic(auto)]

ghost use Rattle.std.specs.Prelude.{◌≡◌, length};

use refusals::Refusal;
use replay::Expected;

// Whether an answer is the one expected, and the stored text as it was.
fn agrees(
    answer: Result<u64, Refusal>,
    e: Expected,
    text: &[u8],
    stored: &[u8],
    content: &[u8],
) -> bool {
    if !replay::keeps(text, stored) {
        return false;
    }
    match answer {
        Ok(word) => replay::is_word(e, word, text, stored.len(), content),
        Err(r) => r.number() == e.number && r.place() as u64 == e.place,
    }
}

// Whether the call gives the answer expected, with the text above the mark filled with this rubbish.
fn called(
    condition: &[u8],
    row: &[u64],
    stored: &[u8],
    content: &[u8],
    e: Expected,
    text: &mut [u8],
    used: usize,
    rubbish: u64,
) -> bool
    ensures { length text.new ≡ length text.old }
{
    if text.len() < stored.len() {
        return false;
    }
    replay::lend(text, stored, rubbish);
    let answer = evaluation::evaluate(condition, row, text, used);
    agrees(answer, e, text, stored, content)
}

// One case.
fn replays(case: &[u8], text: &mut [u8], rubbish: u64) -> bool
    ensures { length text.new ≡ length text.old }
{
    if case.len() < 4 {
        return false;
    }
    if case[0] != 18 {
        return false;
    }
    let condition = replay::bytes(case, 4);
    let mut space = [0u64; 64];
    let row = replay::words(case, condition.next, &mut space);
    let cells = row.count;
    let lent = replay::lent(case, row.next);
    let size = lent.size;
    if text.len() < size {
        return false;
    }
    let e = replay::answer(case, lent.stored.next);
    let content = replay::bytes(case, replay::after(case, lent.stored.next, 36));
    called(
        replay::part(case, condition),
        &space[..cells],
        replay::part(case, lent.stored),
        replay::part(case, content),
        e,
        &mut text[..size],
        lent.used,
        rubbish,
    )
}

fn main() {
    let mut text = [0u8; 65537];
    replay::each_case(|case, rubbish| replays(case, &mut text, rubbish));
}
