// A text as `{:?}` quotes it. Every call puts its bytes as far as there is room and returns the place after all of them.
#![tactic(auto)]

ghost use Rattle.std.specs.Prelude.{◌≡◌, cond, [], ◌∷◌, ◌++◌, ◌+◌, ◌*◌, ◌<◌, ◌^◌, length, eqb};
ghost use Rattle.puts.specs.Put.{Puts};
ghost use Rattle.quoting.specs.Quote.{hex_digit, hex, is_control, escaped, quoted, has_high};

// A hexadecimal digit in lower case.
fn hex_digit(n: u8) -> u8
    requires { n < 16 }
    ensures { result ≡ hex_digit n }
{
    if n < 10 {
        return 48 + n;
    }
    87 + n
}

// A byte in hexadecimal digits, without leading zeros.
fn put_hex(b: u8, out: &mut [u8], at: usize) -> usize
    requires { at + 2 < 2 ^ 64 }
    ensures { Puts out.old at (hex b) result out.new }
{
    if b < 16 {
        return puts::put_byte(hex_digit(b), out, at);
    }
    let next = puts::put_byte(hex_digit(b / 16), out, at);
    puts::put_byte(hex_digit(b % 16), out, next)
}

// What stands after the backslash of a byte that has a letter of its own there, or 0.
fn letter_of(b: u8) -> u8
    ensures { escaped b ≡ cond (eqb result 0) (cond (is_control b) (92 ∷ 117 ∷ 123 ∷ (hex b ++ (125 ∷ []))) (b ∷ [])) (92 ∷ result ∷ []) }
{
    match b {
        b'"' => b'"',
        b'\\' => b'\\',
        0 => b'0',
        9 => b't',
        10 => b'n',
        13 => b'r',
        _ => 0,
    }
}

// Whether a byte is escaped by its number, unless it has a letter.
fn is_control(b: u8) -> bool
    ensures { result ≡ is_control b }
{
    b < 32 || b == 127
}

// A byte by its number.
fn put_control(b: u8, out: &mut [u8], at: usize) -> usize
    requires { at + 6 < 2 ^ 64 }
    ensures { Puts out.old at (92 ∷ 117 ∷ 123 ∷ (hex b ++ (125 ∷ []))) result out.new }
{
    let from = puts::put_bytes(b"\\u{", out, at);
    let next = put_hex(b, out, from);
    puts::put_byte(b'}', out, next)
}

// A byte of a quoted text.
fn put_escaped(b: u8, out: &mut [u8], at: usize) -> usize
    requires { at + 6 < 2 ^ 64 }
    ensures { Puts out.old at (escaped b) result out.new }
{
    let letter = letter_of(b);
    if letter != 0 {
        let next = puts::put_byte(b'\\', out, at);
        return puts::put_byte(letter, out, next);
    }
    if is_control(b) {
        return put_control(b, out, at);
    }
    puts::put_byte(b, out, at)
}

// A text between quotes.
pub fn put_text(bytes: &[u8], out: &mut [u8], at: usize) -> usize
    requires { at + (6 * length bytes.now + 8) < 2 ^ 64 }
    ensures { Puts out.old at (quoted bytes.now) result out.new }
{
    let mut next = puts::put_byte(b'"', out, at);
    for b in bytes {
        next = put_escaped(*b, out, next);
    }
    puts::put_byte(b'"', out, next)
}

// Whether a text has a byte of 128 or more.
pub fn has_high(bytes: &[u8]) -> bool
    ensures { result ≡ has_high bytes.now }
{
    bytes.iter().any(|b| 128 <= *b)
}
