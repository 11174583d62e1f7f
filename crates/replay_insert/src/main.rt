// Replays the recorded cases of insert (docs/CASES.md, call 30) from standard input.
#![tactic(auto)]

ghost use Rattle.std.specs.Prelude.{◌+◌, ◌≤◌, length};

use replay::Text;

// Whether the call leaves what is expected, with the text above the mark and the output filled with this rubbish. The text is lent
// read-only, so it is as it was.
fn agrees<'a>(
    case: &[u8],
    lent: Text,
    columns: &[u64],
    old: &'a [u64],
    new: &'a [u64],
    text: &mut [u8],
    out: &mut [u64],
    rubbish: u64,
) -> bool
    requires { (lent.stored.start + lent.stored.count ≤ length case.now) × (lent.stored.next ≤ length case.now) }
{
    let stored = replay::part(case, lent.stored);
    if text.len() < stored.len() {
        return false;
    }
    replay::lend(text, stored, rubbish);
    replay::lend_words(out, rubbish);
    let answer = inserting::insert(columns, old, new, text, lent.used, out);
    let outcome = replay::outcome_of(case, lent.stored.next, out, rubbish);
    outcome.written && replay::is_written(outcome.expected, answer, lent.used)
}

// One case from its text on.
fn replays_from<'a>(
    case: &[u8],
    columns: &[u64],
    old: &'a [u64],
    new: &'a [u64],
    at: usize,
    text: &mut [u8],
    out: &mut [u64],
    rubbish: u64,
) -> bool
    requires { at ≤ length case.now }
{
    let lent = replay::lent(case, at);
    let size = lent.size;
    let room = replay::four(case, lent.stored.next) as usize;
    if text.len() < size {
        return false;
    }
    if out.len() < room {
        return false;
    }
    agrees(
        case,
        lent,
        columns,
        old,
        new,
        &mut text[0..size],
        &mut out[0..room],
        rubbish,
    )
}

// One case.
fn replays(case: &[u8], text: &mut [u8], out: &mut [u64], rubbish: u64) -> bool {
    if case.len() < 4 {
        return false;
    }
    if case[0] != 30 {
        return false;
    }
    let mut one = [0u64; 68];
    let columns = replay::words(case, 4, &mut one);
    let a = columns.count;
    let mut two = [0u64; 4100];
    let old = replay::words(case, columns.next, &mut two);
    let b = old.count;
    let mut three = [0u64; 4100];
    let new = replay::words(case, old.next, &mut three);
    let c = new.count;
    replays_from(
        case,
        &one[0..a],
        &two[0..b],
        &three[0..c],
        new.next,
        text,
        out,
        rubbish,
    )
}

fn main() {
    let mut text = [0u8; 65537];
    let mut out = [0u64; 8200];
    replay::each_case(|case, rubbish| replays(case, &mut text, &mut out, rubbish));
}
