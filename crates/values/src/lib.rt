// Values: truth, order and equality of cells by their content in the stored text, as in value.rs.
// A function is lent the stored text alone, so that nothing can depend on bytes at or above the mark.
#![tactic(auto)]

ghost use Rattle.std.specs.Prelude.{◌≡◌, List, ℕ, length};
ghost use Rattle.cells.specs.Cell.{WellFormed, Inside};
ghost use Rattle.values.specs.Value.{to_value, value_of, to_bool, from_bool};
ghost use Rattle.slices.specs.Bytes.{is_equal};
ghost use Rattle.values.specs.Order.{order};

use cells::ValueRef;
use std::cmp::Ordering;

// Value::to_bool
pub fn to_bool(value: ValueRef) -> bool
    ensures { (stored : List ℕ) → Inside (length stored) value → result ≡ to_bool (to_value stored value) }
{
    match value {
        ValueRef::Null => false,
        ValueRef::Int(number) => number != 0,
        ValueRef::Str(_, length) => length != 0,
        ValueRef::Binary => true,
    }
}

// Value::from_bool; no `From<bool>`, since `ValueRef` is declared in `cells`.
pub fn from_bool(boolean: bool) -> ValueRef
    ensures { (stored : List ℕ) → to_value stored result ≡ from_bool boolean }
{
    if boolean {
        ValueRef::Int(1)
    } else {
        ValueRef::Int(0)
    }
}

// The derived Ord of Value; written out, since texts are compared by content, which a derive on `ValueRef` doesn't see.
pub fn compare(a: ValueRef, b: ValueRef, stored: &[u8]) -> Ordering
    requires { Inside (length stored.now) a × Inside (length stored.now) b }
    ensures { result ≡ order (to_value stored.now a) (to_value stored.now b) }
{
    match a {
        ValueRef::Null => match b {
            ValueRef::Null => Ordering::Equal,
            _ => Ordering::Less,
        },
        ValueRef::Int(x) => match b {
            ValueRef::Null => Ordering::Greater,
            ValueRef::Int(y) => x.cmp(&y),
            _ => Ordering::Less,
        },
        ValueRef::Str(start, length) => match b {
            ValueRef::Str(other, long) => {
                let s = start as usize;
                let e = s + length as usize;
                let p = other as usize;
                let f = p + long as usize;
                slices::compare_bytes(&stored[s..e], &stored[p..f])
            }
            ValueRef::Binary => Ordering::Less,
            _ => Ordering::Greater,
        },
        ValueRef::Binary => match b {
            ValueRef::Binary => Ordering::Equal,
            _ => Ordering::Greater,
        },
    }
}

// The order of two cells by their words, and of texts by content, so it is no derive. Equal words are equal values, and two Ints need no text.
pub fn compare_cells(a: u64, b: u64, stored: &[u8]) -> Ordering
    requires { WellFormed (length stored.now) a × WellFormed (length stored.now) b }
    ensures { result ≡ order (value_of stored.now a) (value_of stored.now b) }
{
    if a == b {
        return Ordering::Equal;
    }
    if a / 0x100_0000_0000_0000 == 1 {
        if b / 0x100_0000_0000_0000 == 1 {
            let x = cells::signed(a % 0x1_0000_0000);
            let y = cells::signed(b % 0x1_0000_0000);
            return x.cmp(&y);
        }
    }
    compare(ValueRef::from(a), ValueRef::from(b), stored)
}

// Whether two cells are equal, texts by content, so it is no derive. Of two different words only two texts can be.
pub fn equal_cells(a: u64, b: u64, stored: &[u8]) -> bool
    requires { WellFormed (length stored.now) a × WellFormed (length stored.now) b }
    ensures { result ≡ is_equal (order (value_of stored.now a) (value_of stored.now b)) }
{
    if a == b {
        return true;
    }
    if a / 0x100_0000_0000_0000 == 2 {
        if b / 0x100_0000_0000_0000 == 2 {
            let s = (a / 65536 % 0x1_0000_0000) as usize;
            let e = s + (a % 65536) as usize;
            let p = (b / 65536 % 0x1_0000_0000) as usize;
            let f = p + (b % 65536) as usize;
            return slices::equal_bytes(&stored[s..e], &stored[p..f]);
        }
    }
    false
}
