// A column's rule: the second of its two words, as in column.rs and document 01's added rules.
#![tactic(auto)]

ghost use Rattle.std.specs.Prelude.{◌≡◌, List, ℕ, length};
ghost use Rattle.cells.specs.Cell.{Inside};
ghost use Rattle.values.specs.Value.{to_value};
ghost use Rattle.rules.specs.Rule.{is_rule, is_nullable, is_key, within_bound, is_valid_value, but_nullable};

use cells::ValueRef;

// Whether a word is some rule's; any other is malformed.
pub fn is_rule(rule: u64) -> bool
    ensures { result ≡ is_rule rule }
{
    if 0x1_0000_0000 <= rule {
        return false;
    }
    if rule / 1024 % 64 != 0 {
        return false;
    }
    if rule % 256 == 2 {
        return true;
    }
    if rule / 65536 % 65536 != 0 {
        return false;
    }
    match rule % 256 {
        1 => true,
        3 => true,
        _ => false,
    }
}

// Column::is_nullable
pub fn is_nullable(rule: u64) -> bool
    ensures { result ≡ is_nullable rule }
{
    rule / 256 % 2 == 1
}

// Column::is_primary_key
pub fn is_primary_key(rule: u64) -> bool
    ensures { result ≡ is_key rule }
{
    rule / 512 % 2 == 1
}

// Whether a text of so many bytes is no longer than the bound; 0 is no bound.
fn within_bound(size: u64, bound: u64) -> bool
    ensures { result ≡ within_bound size bound }
{
    if bound == 0 { true } else { size <= bound }
}

// Column::is_valid_value
pub fn is_valid_value(rule: u64, value: ValueRef) -> bool
    ensures { (stored : List ℕ) → Inside (length stored) value → result ≡ is_valid_value rule (to_value stored value) }
{
    match value {
        ValueRef::Null => is_nullable(rule),
        ValueRef::Int(_) => rule % 256 == 1,
        ValueRef::Str(_, size) => {
            if rule % 256 == 2 {
                return within_bound(size as u64, rule / 65536 % 65536);
            }
            false
        }
        ValueRef::Binary => rule % 256 == 3,
    }
}

// Column::but_nullable
pub fn but_nullable(rule: u64) -> u64
    ensures { result ≡ but_nullable rule }
{
    if is_nullable(rule) { rule } else { rule + 256 }
}
