// The call `bind`: column names give way to column numbers.
#![tactic(auto)]

ghost use Rattle.std.specs.Prelude.{◌≡◌, ℕ, length, take};
ghost use Rattle.refusals.specs.Stop.{checked_of};
ghost use Rattle.conditions.specs.Ast.{Tree};
ghost use Rattle.binding.specs.Bind.{BindIs};
ghost use Rattle.binding.specs.Asked.{before_stop};
ghost use Rattle.numbering.specs.Walk.{BindAsks, Binds};

use conditions::Node;
use nodes::Allowed;
use refusals::Refusal;

// The tree whose last node stands at k, by recursion with falling depth: operands first, the left one before the right, then the operator.
// It answers the place after its bytes and the offset after the tree itself.
fn bind_node(
    nodes: &[u64],
    k: usize,
    depth: usize,
    columns: &[u64],
    stored: &[u8],
    at: usize,
    out: &mut [u8],
    end: usize,
) -> Result<(usize, usize), Refusal>
    requires { (t : Tree ℕ) × BindAsks stored.now columns.now nodes.now out.old k depth at end t }
    ensures { (t : Tree ℕ) → BindAsks stored.now columns.now nodes.now out.old k depth at end t →
        Binds stored.now columns.now out.old out.new at end t result }
{
    match conditions::node_of(nodes[k]) {
        Node::Leaf(word) => numbering::bind_leaf(word, columns, stored, at, out, end),
        Node::One(op) => {
            let (e, n) = bind_node(nodes, k - 1, depth - 1, columns, stored, at, out, end)?;
            out[e] = op as u8;
            Ok((e + 1, n + 1))
        }
        Node::Two(op, l) => {
            let (d, m) = bind_node(nodes, l, depth - 1, columns, stored, at, out, end)?;
            let (e, n) = bind_node(nodes, k - 1, depth - 1, columns, stored, m, out, d)?;
            out[e] = op as u8;
            Ok((e + 1, n + 1))
        }
    }
}

// What is wrong with the text, the output and the columns.
fn check_before(columns: &[u64], size: usize, used: usize, output: usize) -> Result<(), Refusal>
    ensures { checked_of result ≡ before_stop columns.now size used output }
{
    checks::check_room(size, used, 32768)?;
    checks::check_output(output)?;
    tables::check_count(columns)?;
    columns::check_columns(columns, used, 0)
}

// `bind`: the bytes are put together in a buffer of their own, since a refused call leaves the output alone.
pub fn bind(
    condition: &[u8],
    columns: &[u64],
    text: &[u8],
    used: usize,
    out: &mut [u8],
) -> Result<usize, Refusal>
    ensures { BindIs condition.now columns.now (take used text.now) (length text.now) used
        out.old out.new result }
{
    check_before(columns, text.len(), used, out.len())?;
    // of a fixed size, since no call may fail for lack of memory
    let mut table = [0u64; 64];
    let n = forms::scan(Allowed::Named, condition, used, &mut table)?;
    // of a fixed size, since no call may fail for lack of memory
    let mut space = [0u8; 448];
    let (end, _) = bind_node(&table, n - 1, 16, columns, &text[..used], 0, &mut space, 0)?;
    writing::write_bytes(&space[..end], out)
}
