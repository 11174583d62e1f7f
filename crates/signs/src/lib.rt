// How an operator is printed, and how tightly it binds: BinOp of expr.rs.
#![tactic(auto)]

ghost use Rattle.std.specs.Prelude.{◌≡◌, ◌+◌, ◌/◌, ◌%◌, ◌<◌, ◌≤◌, ◌^◌};
ghost use Rattle.slices.specs.Splice.{piece};
ghost use Rattle.puts.specs.Put.{Puts};
ghost use Rattle.signs.specs.Sign.{precedence, signs, spaced, prefix};

// The precedence of a two-sided operator.
pub fn precedence(op: u64) -> u64
    ensures { result ≡ precedence op }
{
    match op {
        0..=37 => 3,
        38..=39 => 8,
        40..=41 => 9,
        42 => 6,
        43 => 4,
        44 => 5,
        45..=46 => 7,
        48 => 2,
        _ => 1,
    }
}

// Where the sign of a two-sided operator stands in `signs`, one space each side: 8 times its start, and its length.
fn sign_place(op: u64) -> usize
    ensures { (piece (result / 8) (result % 8) signs ≡ spaced op) × (result / 8 + result % 8 ≤ 43) × (result % 8 ≤ 5) }
{
    match op {
        32 => 3,
        33 => 20,
        34 => 43,
        35 => 60,
        36 => 83,
        37 => 100,
        38 => 123,
        39 => 139,
        40 => 155,
        41 => 171,
        42 => 187,
        43 => 203,
        44 => 219,
        45 => 236,
        46 => 260,
        48 => 285,
        _ => 316,
    }
}

// The sign of a two-sided operator, out of the text of all signs.
fn put_from(text: &[u8], op: u64, out: &mut [u8], at: usize) -> usize
    requires { (text.now ≡ signs) × (at + 5 < 2 ^ 64) }
    ensures { Puts out.old at (spaced op) result out.new }
{
    let place = sign_place(op);
    let start = place / 8;
    let end = start + place % 8;
    puts::put_bytes(&text[start..end], out, at)
}

// The sign of a two-sided operator, with one space each side. All stand in one text: 17 of them here would be proved one by one.
pub fn put_sign(op: u64, out: &mut [u8], at: usize) -> usize
    requires { at + 5 < 2 ^ 64 }
    ensures { Puts out.old at (spaced op) result out.new }
{
    put_from(b" = != < <= > >= + - * / & | ^ << >> AND OR ", op, out, at)
}

// What stands before the operand of a one-sided operator.
pub fn put_prefix(op: u64, out: &mut [u8], at: usize) -> usize
    requires { at + 4 < 2 ^ 64 }
    ensures { Puts out.old at (prefix op) result out.new }
{
    match op {
        16 => puts::put_bytes(b"-", out, at),
        17 => puts::put_bytes(b"~", out, at),
        _ => puts::put_bytes(b"NOT ", out, at),
    }
}
