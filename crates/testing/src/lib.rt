// A condition as a test of rows.
#![tactic(auto)]

ghost use Rattle.std.specs.Prelude.{◌≡◌, List, ℕ, length, take};
ghost use Rattle.operators.specs.Operator.{base};
ghost use Rattle.testing.specs.Test.{test, TriedIs, PreparedIs, TestAsks, TestIs};

use nodes::Allowed;
use operators::Rules;
use refusals::Refusal;

// The table of a condition's nodes, for rows of so many cells, or the refusal. No condition (length 0) has no nodes.
pub fn prepare(
    condition: &[u8],
    width: usize,
    used: usize,
    nodes: &mut [u64],
) -> Result<usize, Refusal>
    requires { length nodes.old ≡ 64 }
    ensures { PreparedIs used width condition.now nodes.new result }
{
    if condition.len() == 0 {
        return Ok(0);
    }
    let n = forms::scan(Allowed::Bound, condition, used, nodes)?;
    evaluation::check_numbers(condition, width)?;
    Ok(n)
}

// Whether the condition holds of a row, by one word; nothing where the whole test is to be asked.
pub fn try_row(nodes: &[u64], n: usize, row: &[u64], text: &[u8], used: usize) -> Option<bool>
    requires { ((b : List ℕ) × TestAsks b used n nodes.now row.now text.now) × (n ≡ 0 → ⊥) }
    ensures { (b : List ℕ) → TestAsks b used n nodes.now row.now text.now →
        TriedIs result (test base b used (take used text.now) row.now) }
{
    let word = quick::word_of(nodes, n - 1, 16, row, &text[..used])?;
    Some(conditions::truth(word))
}

// The condition on the row that has this place, with the rules of the base.
pub fn test_row(
    nodes: &[u64],
    n: usize,
    row: &[u64],
    text: &mut [u8],
    used: usize,
    place: usize,
) -> Result<bool, Refusal>
    requires { (b : List ℕ) × TestAsks b used n nodes.now row.now text.old }
    ensures { (b : List ℕ) → TestAsks b used n nodes.now row.now text.old →
        TestIs used place text.old text.new result (test base b used (take used text.old) row.now) }
{
    if n == 0 {
        return Ok(true);
    }
    match conditions::evaluate(
        Rules { limit: 1024 },
        nodes,
        n - 1,
        16,
        row,
        text,
        used,
        used,
    ) {
        Ok((word, _)) => Ok(conditions::truth(word)),
        Err(fault) => Err(fault.at(place)),
    }
}
