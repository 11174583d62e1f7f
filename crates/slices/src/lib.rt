// Lent bytes and words: writing a part of a slice, and comparing two texts byte by byte.
#![tactic(auto)]

ghost use Rattle.std.specs.Prelude.{◌≡◌, ◌+◌, ◌≤◌, length};
ghost use Rattle.slices.specs.Splice.{piece, Wrote};
ghost use Rattle.slices.specs.Bytes.{by_bytes, same_bytes};

use std::cmp::Ordering;

// Copies src into out from the place at on, and returns the place after it; by a loop, since `copy_from_slice` would ask `memmove` of whoever links the archive.
pub fn copy<T: Copy>(src: &[T], out: &mut [T], at: usize) -> usize
    requires { at + length src.now ≤ length out.old }
    ensures { Wrote out.old at src.now result out.new }
{
    for i in 0..src.len() {
        out[at + i] = src[i];
    }
    at + src.len()
}

// Copies the n bytes at from to the place to, at or above their end, and returns the place after them.
pub fn copy_up(text: &mut [u8], from: usize, n: usize, to: usize) -> usize
    requires { (from + n ≤ to) × (to + n ≤ length text.old) }
    ensures { Wrote text.old to (piece from n text.old) result text.new }
{
    text.copy_within(from..from + n, to);
    to + n
}

// The order of two texts, byte by byte, a prefix first. A call of its own: inlined, the library's search would keep the comparing of two Ints from being inlined.
#[inline(never)]
pub fn compare_bytes(a: &[u8], b: &[u8]) -> Ordering
    ensures { result ≡ by_bytes a.now b.now }
{
    a.cmp(b)
}

// Whether two texts are equal: their lengths first, then byte by byte from the end, since names and keys often begin alike.
pub fn equal_bytes(a: &[u8], b: &[u8]) -> bool
    ensures { result ≡ same_bytes a.now b.now }
{
    if a.len() != b.len() {
        return false;
    }
    for i in (0..a.len()).rev() {
        if a[i] != b[i] {
            return false;
        }
    }
    true
}
