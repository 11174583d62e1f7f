// Replays the recorded cases of printing (docs/CASES.md, calls 22 and 8) from standard input.
#![tactic(auto)]

ghost use Rattle.std.specs.Prelude.{◌≤◌, length};
ghost use Rattle.cells.specs.Cell.{WellFormed};

use refusals::Refusal;
use replay::Expected;

// Whether a cell is a text with a byte of 128 or more.
fn is_high(word: u64, stored: &[u8]) -> bool
    requires { WellFormed (length stored.now) word }
{
    if word / 0x100_0000_0000_0000 != 2 {
        return false;
    }
    let start = (word / 65536 % 0x1_0000_0000) as usize;
    let end = start + (word % 65536) as usize;
    quoting::has_high(&stored[start..end])
}

// One value as it is printed, or 15, then 9.
fn print_value(word: u64, stored: &[u8], out: &mut [u8]) -> Result<usize, Refusal> {
    cells::check_cell(word, stored.len(), 0)?;
    if is_high(word, stored) {
        return Err(Refusal::NotPrintable(0));
    }
    let mut none = [0u8; 0];
    let needed = display::put_value(word, stored, &mut none, 0);
    if out.len() < needed {
        return Err(Refusal::OutputShort(needed));
    }
    Ok(display::put_value(word, stored, out, 0))
}

// The call of this number.
fn called(
    call: u8,
    condition: &[u8],
    word: u64,
    stored: &[u8],
    text: &[u8],
    used: usize,
    out: &mut [u8],
) -> Result<usize, Refusal> {
    if call == 22 {
        return printing::print(condition, text, used, out);
    }
    print_value(word, stored, out)
}

// Whether the call gives the answer and the output expected, with the text above the mark and the output filled with this rubbish.
fn tried(
    call: u8,
    condition: &[u8],
    word: u64,
    stored: &[u8],
    written: &[u8],
    e: Expected,
    text: &mut [u8],
    used: usize,
    out: &mut [u8],
    rubbish: u64,
) -> bool {
    if text.len() < stored.len() {
        return false;
    }
    replay::lend(text, stored, rubbish);
    replay::lend(out, &stored[..0], rubbish);
    let answer = called(call, condition, word, stored, text, used, out);
    replay::is_written(e, answer, used) && replay::output_is(out, written, rubbish)
}

// Where the text of a case stands: after the condition, or after the word.
fn text_at(case: &[u8]) -> usize
    requires { 12 ≤ length case.now }
    ensures { result ≤ length case.now }
{
    if case[0] == 22 {
        let condition = replay::bytes(case, 4);
        return condition.next;
    }
    12
}

// One case.
fn replays(case: &[u8], text: &mut [u8], out: &mut [u8], rubbish: u64) -> bool {
    if case.len() < 12 {
        return false;
    }
    let condition = replay::bytes(case, 4);
    let rest = replay::rest_of(case, text_at(case));
    let size = rest.lent.size;
    let room = rest.room;
    if text.len() < size {
        return false;
    }
    if out.len() < room {
        return false;
    }
    tried(
        case[0],
        replay::part(case, condition),
        replay::eight(case, 4),
        replay::part(case, rest.lent.stored),
        replay::part(case, rest.written),
        rest.expected,
        &mut text[0..size],
        rest.lent.used,
        &mut out[0..room],
        rubbish,
    )
}

fn main() {
    let mut text = [0u8; 65537];
    let mut out = [0u8; 1100];
    replay::each_case(|case, rubbish| replays(case, &mut text, &mut out, rubbish));
}
