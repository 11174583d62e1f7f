// Operators on the words of cells, where the result is one word and no text is written: `operators` hands its answers on through
// memory, an optional word comes back in registers. Nothing is told of what is left to `operators`.
#![tactic(auto)]

ghost use Rattle.std.specs.Prelude.{◌≡◌, List, ℕ, ◌<◌, ◌≤◌, length, Some, OnSome};
ghost use Rattle.cells.specs.Cell.{WellFormed};
ghost use Rattle.values.specs.Value.{value_of};
ghost use Rattle.integers.specs.Integer.{int_of, fitted, on_ints};
ghost use Rattle.operators.specs.Operator.{unary_of};
ghost use Rattle.operators.specs.declared.Rules.{Rules};
ghost use Rattle.wordwise.specs.Settled.{Settled, on_both, GivesBoth, Ints, IsTwoSided};

use operators::Rules;

// A number as an Int's word; not `integers`' own, which tells a fault and hands the top on.
#[inline(always)]
fn narrow(z: i64) -> Option<u64>
    ensures { Settled result (fitted z) }
{
    if z < -2147483648 {
        return None;
    }
    if 2147483647 < z {
        return None;
    }
    Some(0x100_0000_0000_0000 + cells::bits(z as i32))
}

// The number of an Int's word, by one sign extension and no branch, which `integers::int_of` has.
#[inline(always)]
fn number(word: u64) -> i64
    ensures { result ≡ int_of word }
{
    ((word % 0x1_0000_0000 + 0x8000_0000) % 0x1_0000_0000) as i64 - 0x8000_0000
}

// AND and OR of two truths.
#[inline(always)]
fn decide(op: u64, a: u64, b: u64) -> u64
    requires { (48 ≤ op) × (op < 50) }
    ensures { GivesBoth op a b (Some result) }
{
    if op == 48 {
        if conditions::truth(a) {
            return operators::flag(conditions::truth(b));
        }
        return operators::flag(false);
    }
    if conditions::truth(a) {
        return operators::flag(true);
    }
    operators::flag(conditions::truth(b))
}

// `/` and shifts of two Ints (and any other that gives a number), which are rare.
fn rare(op: u64, a: u64, b: u64) -> Option<u64>
    requires { (38 ≤ op) × (op < 47) }
    ensures { Settled result (on_ints op (int_of a) (int_of b)) }
{
    match integers::on_ints(op, a, b, 0) {
        Ok((word, _)) => Some(word),
        Err(_) => None,
    }
}

// The operators on two Ints that go by their words alone: `= != & | ^`, AND and OR.
#[inline(always)]
fn on_words(op: u64, a: u64, b: u64) -> Option<u64>
    requires { Ints a b }
    ensures known { OnSome result (IsTwoSided op) }
    ensures is { GivesBoth op a b result }
{
    if op == 32 {
        return Some(operators::flag(a == b));
    }
    if op == 33 {
        return Some(operators::flag(a != b));
    }
    if op == 42 {
        return Some(0x100_0000_0000_0000 + (a % 0x1_0000_0000 & b % 0x1_0000_0000));
    }
    if op == 43 {
        return Some(0x100_0000_0000_0000 + (a % 0x1_0000_0000 | b % 0x1_0000_0000));
    }
    if op == 44 {
        return Some(0x100_0000_0000_0000 + (a % 0x1_0000_0000 ^ b % 0x1_0000_0000));
    }
    if op == 48 {
        return Some(decide(48, a, b));
    }
    if op == 49 {
        return Some(decide(49, a, b));
    }
    if op < 38 {
        return None;
    }
    if op < 47 {
        return rare(op, a, b);
    }
    None
}

// An operator on two Ints: one choice among all of them, which is made by one jump.
#[inline(always)]
fn on_ints(op: u64, a: u64, b: u64) -> Option<u64>
    requires { Ints a b }
    ensures known { OnSome result (IsTwoSided op) }
    ensures is { GivesBoth op a b result }
{
    let x = number(a);
    let y = number(b);
    if op == 34 {
        return Some(operators::flag(x < y));
    }
    if op == 35 {
        return Some(operators::flag(!(y < x)));
    }
    if op == 36 {
        return Some(operators::flag(y < x));
    }
    if op == 37 {
        return Some(operators::flag(!(x < y)));
    }
    if op == 38 {
        return narrow(x + y);
    }
    if op == 39 {
        return narrow(x - y);
    }
    if op == 40 {
        return narrow(x * y);
    }
    on_words(op, a, b)
}

// An operator on cells that aren't both Ints: comparisons, AND and OR; what is left of the others may be a text. `=`, the
// commonest on texts, goes without a second choice.
pub fn on_cells(op: u64, a: u64, b: u64, stored: &[u8]) -> Option<u64>
    requires { WellFormed (length stored.now) a × WellFormed (length stored.now) b }
    ensures known { OnSome result (IsTwoSided op) }
    ensures is { (R : Rules) → Settled result (on_both R op (value_of stored.now a) (value_of stored.now b)) }
{
    if op == 32 {
        return Some(operators::flag(values::equal_cells(a, b, stored)));
    }
    if op < 32 {
        return None;
    }
    if op < 38 {
        return Some(operators::flag(operators::compare(op, a, b, stored)));
    }
    if op == 48 {
        return Some(decide(48, a, b));
    }
    if op == 49 {
        return Some(decide(49, a, b));
    }
    None
}

// A node of any kind on two cells, if it is a two-sided operator.
#[inline(always)]
pub fn two(op: u64, a: u64, b: u64, stored: &[u8]) -> Option<u64>
    requires { WellFormed (length stored.now) a × WellFormed (length stored.now) b }
    ensures known { OnSome result (IsTwoSided op) }
    ensures is { (R : Rules) → Settled result (on_both R op (value_of stored.now a) (value_of stored.now b)) }
{
    if a / 0x100_0000_0000_0000 != 1 {
        return on_cells(op, a, b, stored);
    }
    if b / 0x100_0000_0000_0000 != 1 {
        return on_cells(op, a, b, stored);
    }
    on_ints(op, a, b)
}

// UnOp::eval
pub fn one(op: u64, a: u64) -> Option<u64>
    requires { (16 ≤ op) × (op < 19) }
    ensures { (R : Rules) (stored : List ℕ) → WellFormed (length stored) a → Settled result (unary_of R op (value_of stored a)) }
{
    match operators::unary(Rules { limit: 0 }, op, a, 0) {
        Ok((word, _)) => Some(word),
        Err(_) => None,
    }
}
