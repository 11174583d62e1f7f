// `evaluate` in one pass: the bytes of a bound condition are checked and worked out at once, on a stack of words.
// It gives no word wherever anything is refused or isn't simple; then nothing is said.
#![tactic(auto)]

ghost use Rattle.std.specs.Prelude.{◌≡◌, true, ◌<◌, length, get_or, IfSome};
ghost use Rattle.refusals.specs.Stop.{never};
ghost use Rattle.cells.specs.Cell.{WellFormed};
ghost use Rattle.checks.specs.Check.{cells_stop};
ghost use Rattle.conditions.specs.Table.{RowSound};
ghost use Rattle.straight.specs.Straight.{LeafRead, IsWhole, Ran, Straight};

// Whether a word is well formed below the mark: an Int is, by its upper half.
fn is_fine(word: u64, used: usize) -> bool
    ensures { result ≡ true → WellFormed used word }
{
    if word / 0x1_0000_0000 == 0x100_0000 {
        return true;
    }
    if cells::is_cell(word) {
        return !cells::reaches_beyond(word, used);
    }
    false
}

// Whether all cells of a row are well formed below the mark.
fn are_cells(row: &[u64], used: usize) -> bool
    ensures { result ≡ true → cells_stop used 0 row.now ≡ never }
{
    row.iter().all(|word| is_fine(*word, used))
}

// The cell of a column's node.
fn column(b: &[u8], at: usize, row: &[u64], used: usize) -> Option<u64>
    requires { (at < length b.now) × (get_or b.now at 0 ≡ 4) }
    ensures { IfSome result (LeafRead used b.now row.now at 4) }
{
    if b.len() - at < 2 {
        return None;
    }
    let number = nodes::wide(b[at + 1]) as usize;
    if row.len() <= number {
        return None;
    }
    Some(row[number])
}

// The cell of a leaf's node.
fn leaf(b: &[u8], at: usize, k: u64, row: &[u64], used: usize) -> Option<u64>
    requires { (at < length b.now) × (get_or b.now at 0 ≡ k) }
    ensures { IfSome result (LeafRead used b.now row.now at k) }
{
    if k == 4 {
        return column(b, at, row, used);
    }
    if k == 1 {
        if b.len() - at < 5 {
            return None;
        }
        return Some(nodes::leaf_word(b, at, 1));
    }
    if k == 2 {
        if b.len() - at < 7 {
            return None;
        }
        if nodes::text_fits(b, at, 2, used) {
            return Some(nodes::leaf_word(b, at, 2));
        }
        return None;
    }
    if k == 0 {
        return Some(nodes::leaf_word(b, at, 0));
    }
    None
}

// The value of the whole, from how many values are left and the first: of one tree with an operator, and no text.
// 15 operators make no tree that is more than 16 deep.
fn whole(n: usize, done: usize, word: u64) -> Option<u64>
    ensures { IfSome result (IsWhole n done word) }
{
    if n != 1 {
        return None;
    }
    if done == 0 {
        return None;
    }
    if 15 < done {
        return None;
    }
    if word / 0x100_0000_0000_0000 == 2 {
        return None;
    }
    Some(word)
}

// The pass over the bytes, with the values of the trees so far on a stack, the last one in `top`.
fn run(b: &[u8], row: &[u64], stored: &[u8]) -> Option<u64>
    requires { RowSound (length stored.now) row.now }
    ensures { IfSome result (Ran b.now row.now stored.now) }
{
    // of a fixed size, since no call may fail for lack of memory
    let mut stack = [0u64; 16];
    let mut top: u64 = 0;
    let mut n: usize = 0;
    let mut done: usize = 0;
    let mut at: usize = 0;
    // a while loop, since it steps by a node's length
    while at < b.len() {
        let k = nodes::wide(b[at]);
        if k < 16 {
            if n == 16 {
                return None;
            }
            let cell = leaf(b, at, k, row, stored.len())?;
            stack[n] = top;
            top = cell;
            n += 1;
            at = at + 1 + nodes::body_of(k);
            continue;
        }
        if n < 2 {
            return None;
        }
        n -= 1;
        top = wordwise::two(k, stack[n], top, stored)?;
        done += 1;
        at += 1;
    }
    whole(n, done, top)
}

// `evaluate`, where it is simple.
pub fn evaluate(condition: &[u8], row: &[u64], text: &[u8], used: usize) -> Option<u64>
    ensures { IfSome result (Straight condition.now row.now text.now used) }
{
    if 65536 < text.len() {
        return None;
    }
    if text.len() < used {
        return None;
    }
    if text.len() - used < 32768 {
        return None;
    }
    if row.len() < 1 {
        return None;
    }
    if 32 < row.len() {
        return None;
    }
    if are_cells(row, used) {
        return run(condition, row, &text[..used]);
    }
    None
}
