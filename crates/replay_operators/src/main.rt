// Replays the recorded cases of the operators (docs/CASES.md, call 18 on conditions of one operator) from standard input.
// The operands are leaves, so the operators are called on their words directly.
#![tactic(auto)]

ghost use Rattle.std.specs.Prelude.{◌≡◌, ◌≤◌, length};

use integers::Fault;
use operators::Rules;
use replay::Expected;

// A leaf's word, and where the next node starts; no leaf starts beyond the end.
#[derive(Clone, Copy)]
struct Operand {
    word: u64,
    next: usize,
}

// The leaf at an offset: a literal's word, or the row's cell of that number.
fn leaf(condition: &[u8], at: usize, row: &[u64]) -> Operand
    requires { at ≤ length condition.now }
{
    let none = Operand {
        word: 0,
        next: condition.len() + 1,
    };
    if condition.len() <= at {
        return none;
    }
    match condition[at] {
        0 => Operand {
            word: 0,
            next: at + 1,
        },
        1 => Operand {
            word: 0x100_0000_0000_0000 + replay::four(condition, at + 1),
            next: at + 5,
        },
        2 => {
            let start = replay::four(condition, at + 1);
            let size = replay::four(condition, at + 5) % 65536;
            Operand {
                word: 0x200_0000_0000_0000 + start * 65536 + size,
                next: at + 7,
            }
        }
        4 => {
            let column = (replay::four(condition, at + 1) % 256) as usize;
            if column < row.len() {
                return Operand {
                    word: row[column],
                    next: at + 2,
                };
            }
            none
        }
        _ => none,
    }
}

// A two-sided operator on two words, where they are sound and there is room.
fn two_sided(op: u64, a: u64, b: u64, text: &mut [u8], used: usize) -> Result<(u64, usize), Fault>
    ensures { length text.new ≡ length text.old }
{
    let none = Ok((0xffff_ffff_ffff_ffff, used));
    if op < 32 {
        return none;
    }
    if 46 < op {
        return none;
    }
    let size = text.len();
    if 65536 < size {
        return none;
    }
    if size < 1024 {
        return none;
    }
    if size - 1024 < used {
        return none;
    }
    let Ok(()) = cells::check_cell(a, used, 0) else {
        return none;
    };
    let Ok(()) = cells::check_cell(b, used, 0) else {
        return none;
    };
    operators::binary(Rules { limit: 1024 }, op, a, b, text, used)
}

// What the condition's one operator gives.
fn computed(
    condition: &[u8],
    row: &[u64],
    text: &mut [u8],
    used: usize,
) -> Result<(u64, usize), Fault>
    ensures { length text.new ≡ length text.old }
{
    let none = Ok((0xffff_ffff_ffff_ffff, used));
    let a = leaf(condition, 0, row);
    let at = a.next;
    if at == condition.len() {
        return Ok((a.word, used));
    }
    if condition.len() < at {
        return none;
    }
    let op = condition[at] as u64;
    if at + 1 == condition.len() {
        if op < 16 {
            return none;
        }
        if 18 < op {
            return none;
        }
        return operators::unary(Rules { limit: 1024 }, op, a.word, used);
    }
    let b = leaf(condition, at, row);
    let last = b.next;
    if condition.len() <= last {
        return none;
    }
    two_sided(condition[last] as u64, a.word, b.word, text, used)
}

// Whether an answer is the one expected, and the stored text as it was.
fn agrees(
    answer: Result<(u64, usize), Fault>,
    e: Expected,
    text: &[u8],
    stored: &[u8],
    content: &[u8],
) -> bool {
    if !replay::keeps(text, stored) {
        return false;
    }
    match answer {
        Ok((word, _)) => replay::is_word(e, word, text, stored.len(), content),
        Err(fault) => e.number == fault.at(0).number() && e.place == 0,
    }
}

// Whether the call gives the answer expected, with the text above the mark filled with this rubbish.
fn called(
    condition: &[u8],
    row: &[u64],
    stored: &[u8],
    content: &[u8],
    e: Expected,
    text: &mut [u8],
    rubbish: u64,
) -> bool
    ensures { length text.new ≡ length text.old }
{
    let used = stored.len();
    if text.len() < used {
        return false;
    }
    replay::lend(text, stored, rubbish);
    let answer = computed(condition, row, text, used);
    agrees(answer, e, text, stored, content)
}

// One case.
fn replays(case: &[u8], text: &mut [u8], rubbish: u64) -> bool
    ensures { length text.new ≡ length text.old }
{
    if case.len() < 4 {
        return false;
    }
    let condition = replay::bytes(case, 4);
    let from = condition.start;
    let to = from + condition.count;
    let mut space = [0u64; 32];
    let row = replay::words(case, condition.next, &mut space);
    let cells = row.count;
    let stored = replay::bytes(case, replay::after(case, row.next, 12));
    let start = stored.start;
    let end = start + stored.count;
    let e = replay::answer(case, stored.next);
    let content = replay::bytes(case, replay::after(case, stored.next, 36));
    let first = content.start;
    let last = first + content.count;
    called(
        &case[from..to],
        &space[..cells],
        &case[start..end],
        &case[first..last],
        e,
        text,
        rubbish,
    )
}

fn main() {
    let mut text = [0u8; 65536];
    replay::each_case(|case, rubbish| replays(case, &mut text, rubbish));
}
