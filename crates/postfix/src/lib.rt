// The postfix bytes of a condition, written node by node.
#![tactic(auto)]

ghost use Rattle.std.specs.Prelude.{◌+◌, ◌≤◌, ◌++◌, length};
ghost use Rattle.slices.specs.Splice.{Wrote};
ghost use Rattle.cells.specs.Cell.{start_of, length_of};
ghost use Rattle.postfix.specs.Postfix.{little, body_bytes, leaf_bytes};

// Writes a number in so many bytes, the low one first, and returns the place after them.
pub fn write_little(x: u64, n: usize, out: &mut [u8], at: usize) -> usize
    requires { at + n ≤ length out.old }
    ensures { Wrote out.old at (little n x) result out.new }
{
    let mut rest = x;
    for i in 0..n {
        out[at + i] = (rest % 256) as u8;
        rest = rest / 256;
    }
    at + n
}

// Writes a text's or a name's start and length.
fn write_text(word: u64, out: &mut [u8], at: usize) -> usize
    requires { at + 6 ≤ length out.old }
    ensures { Wrote out.old at (little 4 (start_of word) ++ little 2 (length_of word)) result out.new }
{
    let next = write_little(word / 65536 % 0x1_0000_0000, 4, out, at);
    write_little(word % 65536, 2, out, next)
}

// Writes a leaf's body.
fn write_body(word: u64, out: &mut [u8], at: usize) -> usize
    requires { at + length (body_bytes word) ≤ length out.old }
    ensures { Wrote out.old at (body_bytes word) result out.new }
{
    let kind = word / 0x100_0000_0000_0000;
    if kind == 1 {
        return write_little(word % 0x100_0000_0000_0000, 4, out, at);
    }
    if kind == 2 {
        return write_text(word, out, at);
    }
    if kind == 3 {
        return write_text(word, out, at);
    }
    if kind == 4 {
        return write_little(word % 0x100_0000_0000_0000, 1, out, at);
    }
    at
}

// Writes a leaf: its kind, then its body.
pub fn write_leaf(word: u64, out: &mut [u8], at: usize) -> usize
    requires { at + length (leaf_bytes word) ≤ length out.old }
    ensures { Wrote out.old at (leaf_bytes word) result out.new }
{
    out[at] = (word / 0x100_0000_0000_0000) as u8;
    write_body(word, out, at + 1)
}
