// Bytes put one after another, as far as there is room: the same calls count, given an empty output, and write.
#![tactic(auto)]

ghost use Rattle.std.specs.Prelude.{cond, [], ◌∷◌, ◌+◌, ◌<◌, ◌^◌, length};
ghost use Rattle.puts.specs.Put.{Puts};

// One byte.
pub fn put_byte(b: u8, out: &mut [u8], at: usize) -> usize
    requires { at + 1 < 2 ^ 64 }
    ensures { Puts out.old at (b ∷ []) result out.new }
{
    let next = at + 1;
    if at < out.len() {
        out[at] = b;
    }
    next
}

// One byte where a test holds, or none.
pub fn put_if(test: bool, b: u8, out: &mut [u8], at: usize) -> usize
    requires { at + 1 < 2 ^ 64 }
    ensures { Puts out.old at (cond test (b ∷ []) []) result out.new }
{
    if test {
        return put_byte(b, out, at);
    }
    at
}

// Bytes in order.
pub fn put_bytes(bytes: &[u8], out: &mut [u8], at: usize) -> usize
    requires { at + length bytes.now < 2 ^ 64 }
    ensures { Puts out.old at bytes.now result out.new }
{
    let mut next = at;
    for b in bytes {
        next = put_byte(*b, out, next);
    }
    next
}
