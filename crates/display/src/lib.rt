// Values as they are printed: Display of value.rs, a text as `{:?}` quotes it. Every call puts its bytes as far as there is room and returns the place
// after all of them.
#![tactic(auto)]

ghost use Rattle.std.specs.Prelude.{◌+◌, ◌<◌, ◌^◌, length};
ghost use Rattle.std.specs.Int.{w32};
ghost use Rattle.std.proofs.Common.{to_z};
ghost use Rattle.cells.specs.Cell.{WellFormed};
ghost use Rattle.values.specs.Value.{value_of};
ghost use Rattle.puts.specs.Put.{Puts};
ghost use Rattle.display.specs.Display.{digits, decimal, display};

// The decimal digits of a number, at most so many.
fn put_digits(most: usize, n: u64, out: &mut [u8], at: usize) -> usize
    requires { at + most < 2 ^ 64 }
    ensures { Puts out.old at (digits most n) result out.new }
{
    if most == 0 {
        return at;
    }
    if n < 10 {
        return puts::put_byte(48 + n as u8, out, at);
    }
    let next = put_digits(most - 1, n / 10, out, at);
    puts::put_byte(48 + (n % 10) as u8, out, next)
}

// The number of 32 bits in two's complement.
fn put_decimal(bits: u64, out: &mut [u8], at: usize) -> usize
    requires { (bits < 2 ^ 32) × (at + 11 < 2 ^ 64) }
    ensures { Puts out.old at (decimal (to_z w32 bits)) result out.new }
{
    if bits < 0x8000_0000 {
        return put_digits(10, bits, out, at);
    }
    let next = puts::put_byte(b'-', out, at);
    put_digits(10, 0x1_0000_0000 - bits, out, next)
}

// A value by its word.
pub fn put_value(word: u64, stored: &[u8], out: &mut [u8], at: usize) -> usize
    requires { WellFormed (length stored.now) word × (at + 400000 < 2 ^ 64) }
    ensures { Puts out.old at (display (value_of stored.now word)) result out.new }
{
    match word / 0x100_0000_0000_0000 {
        1 => put_decimal(word % 0x1_0000_0000, out, at),
        2 => {
            let start = (word / 65536 % 0x1_0000_0000) as usize;
            let end = start + (word % 65536) as usize;
            quoting::put_text(&stored[start..end], out, at)
        }
        3 => puts::put_bytes(b"BINARY_STREAM", out, at),
        _ => puts::put_bytes(b"NULL", out, at),
    }
}
