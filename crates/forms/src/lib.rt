// The form of a condition: one scan of its postfix bytes into the table of nodes that evaluation walks.
#![tactic(auto)]

ghost use Rattle.std.specs.Prelude.{◌≡◌, List, ℕ, ◌+◌, ◌*◌, ◌<◌, ◌≤◌, length, get_or};
ghost use Rattle.conditions.specs.Ast.{Tree};
ghost use Rattle.forms.specs.Form.{on_one, on_two, node_at, parsed};
ghost use Rattle.forms.specs.Held.{Held, Marks, StepIs, StepFine, OperatorFine, ScanIs};

use nodes::Allowed;
use refusals::Refusal;

// One step: a node's word, where its tree starts, its height and the next offset.
#[derive(Clone, Copy)]
pub struct Step {
    pub word: u64,
    pub start: usize,
    pub deep: usize,
    pub next: usize,
}

// A one-sided operator on the top of the stack.
fn scan_one(
    k: u64,
    at: usize,
    next: usize,
    starts: &[usize],
    deeps: &[usize],
    n: usize,
) -> Result<Step, Refusal>
    requires { ((16 ≤ k) × (k < 19)) × ((n < 64) × Marks starts.now deeps.now n) }
    ensures fine { OperatorFine at n next result }
    ensures is { (used : ℕ) (nodes : List ℕ) (s : List (Tree ℕ)) → length nodes ≡ 64 → Held used nodes starts.now deeps.now n s →
        StepIs used nodes starts.now deeps.now n result (on_one k s next) }
{
    if n == 0 {
        return Err(Refusal::NotACondition(at));
    }
    let start = starts[n - 1];
    let deep = deeps[n - 1];
    if 16 <= deep {
        return Err(Refusal::TooLarge(at));
    }
    Ok(Step {
        word: k * 0x100_0000_0000_0000,
        start,
        deep: deep + 1,
        next,
    })
}

// A two-sided operator on the top two of the stack.
fn scan_two(
    k: u64,
    at: usize,
    next: usize,
    starts: &[usize],
    deeps: &[usize],
    n: usize,
) -> Result<Step, Refusal>
    requires { ((32 ≤ k) × (k < 50)) × ((n < 64) × Marks starts.now deeps.now n) }
    ensures fine { OperatorFine at n next result }
    ensures is { (used : ℕ) (nodes : List ℕ) (s : List (Tree ℕ)) → length nodes ≡ 64 → Held used nodes starts.now deeps.now n s →
        StepIs used nodes starts.now deeps.now n result (on_two k s next) }
{
    if n == 0 {
        return Err(Refusal::NotACondition(at));
    }
    let right = starts[n - 1];
    if right == 0 {
        return Err(Refusal::NotACondition(at));
    }
    let l = right - 1;
    let higher = deeps[l].max(deeps[n - 1]);
    if 16 <= higher {
        return Err(Refusal::TooLarge(at));
    }
    Ok(Step {
        word: k * 0x100_0000_0000_0000 + l as u64,
        start: starts[l],
        deep: higher + 1,
        next,
    })
}

// One node of the scan.
fn scan_node(
    form: Allowed,
    b: &[u8],
    at: usize,
    used: usize,
    starts: &[usize],
    deeps: &[usize],
    n: usize,
) -> Result<Step, Refusal>
    requires { (at < length b.now) × ((n < 64) × Marks starts.now deeps.now n) }
    ensures fine { StepFine at n b.now result }
    ensures is { (nodes : List ℕ) (s : List (Tree ℕ)) → length nodes ≡ 64 → Held used nodes starts.now deeps.now n s →
        StepIs used nodes starts.now deeps.now n result (node_at form used b.now at (get_or b.now at 0) s) }
{
    let k = nodes::wide(b[at]);
    if !nodes::is_known(form, k) {
        return Err(Refusal::NotACondition(at));
    }
    let body = nodes::body_of(k);
    if b.len() - (at + 1) < body {
        return Err(Refusal::NotACondition(at));
    }
    let next = at + 1 + body;
    if 32 <= k {
        return scan_two(k, at, next, starts, deeps, n);
    }
    if 16 <= k {
        return scan_one(k, at, next, starts, deeps, n);
    }
    if !nodes::text_fits(b, at, k, used) {
        return Err(Refusal::TextOutside(at));
    }
    Ok(Step {
        word: nodes::leaf_word(b, at, k),
        start: n,
        deep: 1,
        next,
    })
}

// The whole scan: the table of nodes and how many there are, or the first refusal.
pub fn scan(form: Allowed, b: &[u8], used: usize, nodes: &mut [u64]) -> Result<usize, Refusal>
    requires { length nodes.old ≡ 64 }
    ensures { ScanIs used b.now nodes.new result (parsed form used b.now) }
{
    // of a fixed size, since no call may fail for lack of memory
    let mut starts = [0usize; 64];
    // of a fixed size, since no call may fail for lack of memory
    let mut deeps = [0usize; 64];
    let mut n = 0;
    let mut at = 0;
    // a while loop, since it steps by a node's length
    while at < b.len() {
        if n == 64 {
            return Err(Refusal::TooLarge(at));
        }
        let step = scan_node(form, b, at, used, &starts, &deeps, n)?;
        nodes[n] = step.word;
        starts[n] = step.start;
        deeps[n] = step.deep;
        n += 1;
        at = step.next;
    }
    if n == 0 {
        return Err(Refusal::NotACondition(at));
    }
    if starts[n - 1] == 0 {
        return Ok(n);
    }
    Err(Refusal::NotACondition(at))
}
