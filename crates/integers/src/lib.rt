// The operators on Ints, by way of i64: expr.rs's UnOp and BinOp where its operands are Value::Int.
#![tactic(auto)]

ghost use Rattle.std.specs.Prelude.{◌≡◌, ◌<◌, ◌≤◌, ◌^◌};
ghost use Rattle.std.specs.Int.Signed.{mag};
ghost use Rattle.refusals.specs.Stop.{stop, stop_of};
ghost use Rattle.integers.specs.Outcome.{number_of, reply_of, placed};
ghost use Rattle.integers.specs.Integer.{int_of, fitted, on_ints, negated, inverted};

use refusals::Refusal;

// Why an operator has no value. Where there is one, the answer is its word and the top of the text after it.
#[derive(Clone, Copy)]
pub enum Fault {
    Overflow,
    ShiftAmount,
    TooLong,
}

impl Fault {
    // The refusal of this kind; the place is the caller's to tell.
    pub fn at(self, place: usize) -> Refusal
        ensures { stop_of result ≡ stop (number_of self) place }
    {
        match self {
            Fault::Overflow => Refusal::Overflow(place),
            Fault::ShiftAmount => Refusal::ShiftAmount(place),
            Fault::TooLong => Refusal::TooLong(place),
        }
    }
}

// The number of an Int's word.
pub fn int_of(word: u64) -> i64
    ensures { result ≡ int_of word }
{
    let low = word % 0x1_0000_0000;
    if low < 0x8000_0000 {
        return low as i64;
    }
    low as i64 - 0x1_0000_0000
}

// A number as an Int, or 5.
fn narrow(z: i64, top: usize) -> Result<(u64, usize), Fault>
    ensures { reply_of result ≡ placed top (fitted z) }
{
    if z < -2147483648 {
        return Err(Fault::Overflow);
    }
    if 2147483647 < z {
        return Err(Fault::Overflow);
    }
    Ok((0x100_0000_0000_0000 + cells::bits(z as i32), top))
}

// `+ - * /` on two Ints.
fn arithmetic(op: u64, x: i64, y: i64, top: usize) -> Result<(u64, usize), Fault>
    requires { (38 ≤ op) × (op < 42) × (mag x < 2 ^ 31) × (mag y < 2 ^ 31) }
    ensures { reply_of result ≡ placed top (on_ints op x y) }
{
    if op == 38 {
        return narrow(x + y, top);
    }
    if op == 39 {
        return narrow(x - y, top);
    }
    if op == 40 {
        return narrow(x * y, top);
    }
    if y == 0 {
        return Ok((0, top));
    }
    narrow(x / y, top)
}

// `& | ^` on the 32 bits of two Ints' words.
fn bitwise(op: u64, a: u64, b: u64, top: usize) -> Result<(u64, usize), Fault>
    requires { (42 ≤ op) × (op < 45) }
    ensures { reply_of result ≡ placed top (on_ints op (int_of a) (int_of b)) }
{
    let x = a % 0x1_0000_0000;
    let y = b % 0x1_0000_0000;
    if op == 42 {
        return Ok((0x100_0000_0000_0000 + (x & y), top));
    }
    if op == 43 {
        return Ok((0x100_0000_0000_0000 + (x | y), top));
    }
    Ok((0x100_0000_0000_0000 + (x ^ y), top))
}

// `<< >>` of an Int's word.
fn shift(op: u64, a: u64, y: i64, top: usize) -> Result<(u64, usize), Fault>
    requires { (45 ≤ op) × (op < 47) }
    ensures { reply_of result ≡ placed top (on_ints op (int_of a) y) }
{
    if y < 0 {
        return Err(Fault::ShiftAmount);
    }
    if 31 < y {
        return Err(Fault::ShiftAmount);
    }
    let amount = y as u64;
    if op == 45 {
        let low = a % 0x1_0000_0000;
        return Ok((0x100_0000_0000_0000 + (low << amount) % 0x1_0000_0000, top));
    }
    narrow(int_of(a) >> amount, top)
}

// A two-sided operator on two Ints' words.
pub fn on_ints(op: u64, a: u64, b: u64, top: usize) -> Result<(u64, usize), Fault>
    requires { (38 ≤ op) × (op < 47) }
    ensures { reply_of result ≡ placed top (on_ints op (int_of a) (int_of b)) }
{
    if op < 42 {
        return arithmetic(op, int_of(a), int_of(b), top);
    }
    if op < 45 {
        return bitwise(op, a, b, top);
    }
    shift(op, a, int_of(b), top)
}

// Unary `-` of an Int's word.
pub fn negate(a: u64, top: usize) -> Result<(u64, usize), Fault>
    ensures { reply_of result ≡ placed top (negated (int_of a)) }
{
    narrow(0 - int_of(a), top)
}

// `~` of an Int's word.
pub fn invert(a: u64, top: usize) -> Result<(u64, usize), Fault>
    ensures { reply_of result ≡ placed top (inverted (int_of a)) }
{
    Ok((
        0x100_0000_0000_0000 + (0xffff_ffff - a % 0x1_0000_0000),
        top,
    ))
}
