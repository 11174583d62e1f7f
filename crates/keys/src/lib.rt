// Rows compared by their keys, and the earlier of two rows.
#![tactic(auto)]

ghost use Rattle.std.specs.Prelude.{◌≡◌, cond, length};
ghost use Rattle.refusals.specs.Stop.{checked_of};
ghost use Rattle.std.specs.declared.cmp.Ordering.TheVariants.{Equal};
ghost use Rattle.cells.specs.Cell.{WellFormed};
ghost use Rattle.values.specs.Value.{value_of};
ghost use Rattle.values.specs.Order.{order};
ghost use Rattle.rules.specs.Rule.{is_key};
ghost use Rattle.keys.specs.Key.{key_order, pick, rows_stop, earlier_of};
ghost use Rattle.keys.specs.Comparable.{Comparable};

use refusals::Refusal;
use std::cmp::Ordering;

// The order of two cells in a column of this rule, by content as `values` tells it, so it is no derive: Equal where it is no key column.
pub fn compare_column(rule: u64, a: u64, b: u64, stored: &[u8]) -> Ordering
    requires { WellFormed (length stored.now) a × WellFormed (length stored.now) b }
    ensures { result ≡ cond (is_key rule) (order (value_of stored.now a) (value_of stored.now b)) Equal }
{
    if rules::is_primary_key(rule) {
        return values::compare_cells(a, b, stored);
    }
    Ordering::Equal
}

// The order of two checked rows by their key columns alone, so it is no `cmp` of slices; left at the first that isn't Equal.
pub fn compare_keys(columns: &[u64], stored: &[u8], first: &[u64], second: &[u64]) -> Ordering
    requires { Comparable columns.now (length stored.now) first.now second.now }
    ensures { result ≡ key_order columns.now stored.now first.now second.now }
{
    for i in 0..first.len() {
        let order = compare_column(columns[2 * i + 1], first[i], second[i], stored);
        let Ordering::Equal = order else {
            return order;
        };
    }
    Ordering::Equal
}

// The earlier of two checked rows by key, as lent; the first if equal.
pub fn earlier_row<'a>(
    columns: &[u64],
    stored: &[u8],
    first: &'a [u64],
    second: &'a [u64],
) -> &'a [u64]
    requires { Comparable columns.now (length stored.now) first.now second.now }
    ensures { result.now ≡ pick (key_order columns.now stored.now first.now second.now) first.now second.now }
{
    match compare_keys(columns, stored, first, second) {
        Ordering::Greater => second,
        _ => first,
    }
}

// What would refuse two rows of a table.
pub fn check_rows(
    columns: &[u64],
    size: usize,
    used: usize,
    first: &[u64],
    second: &[u64],
) -> Result<(), Refusal>
    ensures { checked_of result ≡ rows_stop columns.now size used first.now second.now }
{
    checks::check_room(size, used, 0)?;
    if !tables::is_table(columns) {
        return Err(Refusal::Malformed(0));
    }
    if first.len() != columns.len() / 2 {
        return Err(Refusal::Malformed(0));
    }
    if second.len() != columns.len() / 2 {
        return Err(Refusal::Malformed(0));
    }
    tables::check_words(columns, &columns[..0], first, second, used)
}

// `earlier`: the earlier of two rows of one column table, or the empty part where a call would be refused.
pub fn earlier<'a>(
    columns: &[u64],
    text: &[u8],
    used: usize,
    first: &'a [u64],
    second: &'a [u64],
) -> &'a [u64]
    ensures { result.now ≡ earlier_of columns.now text.now used first.now second.now }
{
    let Ok(()) = check_rows(columns, text.len(), used, first, second) else {
        return &first[..0];
    };
    earlier_row(columns, &text[..used], first, second)
}
