// Printing over the table of nodes: a condition by precedence. Every call puts its bytes as far as there is room and returns the place after all of them.
#![tactic(auto)]

ghost use Rattle.std.specs.Prelude.{ℕ, ◌+◌, ◌<◌, ◌^◌, length};
ghost use Rattle.conditions.specs.Ast.{Tree, map_tree};
ghost use Rattle.conditions.specs.Table.{leaf_of};
ghost use Rattle.forms.specs.Held.{LeafHeld};
ghost use Rattle.puts.specs.Put.{Puts};
ghost use Rattle.spelling.specs.Spell.{printed_atom, printed};
ghost use Rattle.spelling.specs.Walk.{PrintAsks, OperatorAsks};

use conditions::Node;

// A leaf: a column by its name, or a literal as its value is displayed. (A named condition has no column numbers.)
pub fn put_leaf(word: u64, stored: &[u8], out: &mut [u8], at: usize) -> usize
    requires { LeafHeld (length stored.now) word × (at + 400000 < 2 ^ 64) }
    ensures { Puts out.old at (printed_atom (leaf_of stored.now word)) result out.new }
{
    match word / 0x100_0000_0000_0000 {
        3 => {
            let start = (word / 65536 % 0x1_0000_0000) as usize;
            let end = start + (word % 65536) as usize;
            puts::put_bytes(&stored[start..end], out, at)
        }
        4 => at,
        _ => display::put_value(word, stored, out, at),
    }
}

// The tree whose last node stands at k, of which a precedence is asked, by recursion with falling depth.
#[cycle(print_node_print_operator)]
pub fn print_node(
    nodes: &[u64],
    k: usize,
    depth: usize,
    asked: u64,
    stored: &[u8],
    out: &mut [u8],
    at: usize,
) -> usize
    requires { (t : Tree ℕ) × PrintAsks stored.now nodes.now k depth at t }
    ensures { (t : Tree ℕ) → PrintAsks stored.now nodes.now k depth at t →
        Puts out.old at (printed asked (map_tree (leaf_of stored.now) t)) result out.new }
{
    match conditions::node_of(nodes[k]) {
        Node::Leaf(word) => put_leaf(word, stored, out, at),
        Node::One(op) => {
            let next = signs::put_prefix(op, out, at);
            print_node(nodes, k - 1, depth - 1, 10, stored, out, next)
        }
        Node::Two(op, l) => print_operator(nodes, op, l, k, depth, asked, stored, out, at),
    }
}

// A two-sided operator between its operands: the left one is asked its precedence, the right one more; parentheses when its own is below the asked.
#[cycle(print_node_print_operator)]
pub fn print_operator(
    nodes: &[u64],
    op: u64,
    l: usize,
    k: usize,
    depth: usize,
    asked: u64,
    stored: &[u8],
    out: &mut [u8],
    at: usize,
) -> usize
    requires { (t : Tree ℕ) × OperatorAsks stored.now nodes.now op l k depth at t }
    ensures { (t : Tree ℕ) → OperatorAsks stored.now nodes.now op l k depth at t →
        Puts out.old at (printed asked (map_tree (leaf_of stored.now) t)) result out.new }
{
    let own = signs::precedence(op);
    let around = own < asked;
    let from = puts::put_if(around, b'(', out, at);
    let middle = print_node(nodes, l, depth - 1, own, stored, out, from);
    let next = signs::put_sign(op, out, middle);
    let end = print_node(nodes, k - 1, depth - 1, own + 1, stored, out, next);
    puts::put_if(around, b')', out, end)
}
