// Folding, one operator: it gives way to its value over literals, and is kept over anything else.
#![tactic(auto)]

ghost use Rattle.std.specs.Prelude.{◌≡◌, List, ℕ, ◌+◌, ◌<◌, ◌≤◌, length, take, ltb};
ghost use Rattle.slices.specs.Bytes.{both};
ghost use Rattle.cells.specs.Cell.{kind_of};
ghost use Rattle.integers.specs.Outcome.{Outcome, reply_of, placed};
ghost use Rattle.conditions.specs.Ast.{Tree};
ghost use Rattle.replacing.specs.Fold.{fold_one, fold_two, replaced};
ghost use Rattle.replacing.specs.Walk.{Says, Stands, StandTwo, Stored, Becomes, TwoAsks, Gives};

use integers::Fault;
use operators::Rules;
use refusals::Refusal;

// A part of the condition folded: its last node's word, the place after its bytes, the new top, and the offset after the part itself.
#[derive(Clone, Copy)]
pub struct Folded {
    pub word: u64,
    pub end: usize,
    pub top: usize,
    pub next: usize,
}

// An operator at an offset gives way to its value, written where its operands began.
#[tactic(auto, using(crate::proofs::Standing::replaced_refused))]
pub fn replace(
    answer: Result<(u64, usize), Fault>,
    place: usize,
    out: &mut [u8],
    start: usize,
) -> Result<Folded, Refusal>
    requires { (start + 7 ≤ length out.old) × (place < 448) }
    ensures { (o : Outcome) (s text front : List ℕ) → reply_of answer ≡ placed (length s) o → Becomes text s o → start ≡ length front →
        front ≡ take start out.old → Says front (place + 1) text out.new result (replaced place s o) }
{
    match answer {
        Ok((word, top)) => {
            let end = postfix::write_leaf(word, out, start);
            Ok(Folded {
                word,
                end,
                top,
                next: place + 1,
            })
        }
        Err(fault) => Err(fault.at(place)),
    }
}

// A unary operator at an offset, over an operand that stands in the output from start to end.
pub fn fold_one(
    rules: Rules,
    op: u64,
    word: u64,
    top: usize,
    place: usize,
    out: &mut [u8],
    start: usize,
    end: usize,
) -> Result<Folded, Refusal>
    requires { ((16 ≤ op) × (op < 19)) × (start + 7 ≤ length out.old) × (end < length out.old) × (place < 448) }
    ensures { (x : Tree ℕ) (s text front : List ℕ) → Stands front x s word end out.old → Stored text s top → length s ≤ 65536 →
        start ≡ length front → Says front (place + 1) text out.new result (fold_one rules place op x s) }
{
    if word < 0x300_0000_0000_0000 {
        return replace(operators::unary(rules, op, word, top), place, out, start);
    }
    out[end] = op as u8;
    Ok(Folded {
        word: op * 0x100_0000_0000_0000,
        end: end + 1,
        top,
        next: place + 1,
    })
}

// Whether a two-sided operator gives way to its value: never AND (48) or OR (49), and only over two literals.
pub fn folds(op: u64, left: u64, right: u64) -> bool
    ensures { result ≡ both (ltb op 47) (both (ltb (kind_of left) 3) (ltb (kind_of right) 3)) }
{
    if 47 <= op {
        return false;
    }
    if 0x300_0000_0000_0000 <= left {
        return false;
    }
    right < 0x300_0000_0000_0000
}

// A two-sided operator at an offset, over operands that stand in the output from start to end.
pub fn fold_two(
    rules: Rules,
    op: u64,
    left: u64,
    right: u64,
    text: &mut [u8],
    top: usize,
    place: usize,
    out: &mut [u8],
    start: usize,
    end: usize,
) -> Result<Folded, Refusal>
    requires { TwoAsks rules op left right top place start end (length text.old) (length out.old) }
    ensures { (x y : Tree ℕ) (s front : List ℕ) → StandTwo front x y s left right end out.old → Stored text.old s top → start ≡ length front →
        Gives front (place + 1) top text.old text.new out.new result (fold_two rules place op x y s) }
{
    if folds(op, left, right) {
        let answer = operators::binary(rules, op, left, right, text, top);
        return replace(answer, place, out, start);
    }
    out[end] = op as u8;
    Ok(Folded {
        word: op * 0x100_0000_0000_0000,
        end: end + 1,
        top,
        next: place + 1,
    })
}
