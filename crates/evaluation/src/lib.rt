// The call `evaluate`: a bound condition on one row.
#![tactic(auto)]

ghost use Rattle.std.specs.Prelude.{◌≡◌, ◌<◌, length};
ghost use Rattle.refusals.specs.Stop.{checked_of};
ghost use Rattle.operators.specs.Operator.{base};
ghost use Rattle.forms.specs.Number.{is_missing, numbers_stop};
ghost use Rattle.evaluation.specs.Evaluation.{PreparedIs, EvaluatedIs};

use nodes::Allowed;
use operators::Rules;
use refusals::Refusal;

// Whether the node at an offset is a column whose number is no column's.
fn is_missing(b: &[u8], at: usize, width: usize) -> bool
    requires { at < length b.now }
    ensures { result ≡ is_missing width b.now at }
{
    if nodes::wide(b[at]) != 4 {
        return false;
    }
    if b.len() <= at + 1 {
        return width <= 0;
    }
    width <= nodes::wide(b[at + 1]) as usize
}

// Refusal 4 over the columns of a condition.
pub fn check_numbers(b: &[u8], width: usize) -> Result<(), Refusal>
    ensures { checked_of result ≡ numbers_stop width b.now 64 0 }
{
    let mut at: usize = 0;
    // at most 64 nodes
    for _ in 0usize..64 {
        if b.len() <= at {
            return Ok(());
        }
        if is_missing(b, at, width) {
            return Err(Refusal::NoSuchColumn(at));
        }
        let body = nodes::body_of(nodes::wide(b[at]));
        at = at + 1 + body;
    }
    Ok(())
}

// All that is looked at before evaluation: the table of nodes and how many there are, or what stops it.
fn prepare(
    condition: &[u8],
    row: &[u64],
    size: usize,
    used: usize,
    nodes: &mut [u64],
) -> Result<usize, Refusal>
    requires { length nodes.old ≡ 64 }
    ensures { PreparedIs condition.now row.now size used nodes.new result }
{
    checks::check_room(size, used, 32768)?;
    if row.len() < 1 {
        return Err(Refusal::Malformed(0));
    }
    if 32 < row.len() {
        return Err(Refusal::Malformed(0));
    }
    checks::check_cells(row, used, 0)?;
    let n = forms::scan(Allowed::Bound, condition, used, nodes)?;
    check_numbers(condition, row.len())?;
    Ok(n)
}

// `evaluate` by the table of nodes, with the rules of the base.
#[tactic(auto, using(crate::proofs::Whole::faulted))]
fn walk(condition: &[u8], row: &[u64], text: &mut [u8], used: usize) -> Result<u64, Refusal>
    ensures { EvaluatedIs base condition.now row.now text.old text.new used result }
{
    // of a fixed size, since no call may fail for lack of memory
    let mut table = [0u64; 64];
    let n = prepare(condition, row, text.len(), used, &mut table)?;
    match quick::evaluate(
        Rules { limit: 1024 },
        &table,
        n - 1,
        16,
        row,
        text,
        used,
        used,
    ) {
        Ok((word, _)) => Ok(word),
        Err(fault) => Err(fault.at(0)),
    }
}

// `evaluate`, with the rules of the base: in one pass where that gives a cell.
pub fn evaluate(condition: &[u8], row: &[u64], text: &mut [u8], used: usize) -> Result<u64, Refusal>
    ensures { EvaluatedIs base condition.now row.now text.old text.new used result }
{
    if let Some(word) = straight::evaluate(condition, row, text, used) {
        return Ok(word);
    }
    walk(condition, row, text, used)
}
