// Conditions as a table of nodes, and their evaluation by recursion: Ast::eval of expr.rs.
#![tactic(auto)]

ghost use Rattle.std.specs.Prelude.{◌≡◌, List, ℕ, ◌<◌, ◌≤◌, length, take, get_or};
ghost use Rattle.cells.specs.Cell.{WellFormed};
ghost use Rattle.values.specs.Value.{value_of, to_bool};
ghost use Rattle.operators.specs.Operator.{Applied, Room};
ghost use Rattle.conditions.specs.Ast.{decides, two_sided};
ghost use Rattle.conditions.specs.Table.{node_of, LeafSound, RowSound, LeafIs, Asks, Answers, Lies};

use cells::ValueRef;
use integers::Fault;
use operators::Rules;

// A node of the table: a leaf's word, or an operator with the index of its left operand. The right operand, or the only one, stands just before.
#[derive(Clone, Copy)]
pub enum Node {
    Leaf(u64),
    One(u64),
    Two(u64, usize),
}

// The node of a word, by its kind.
pub fn node_of(word: u64) -> Node
    ensures { result ≡ node_of word }
{
    let kind = word / 0x100_0000_0000_0000;
    if kind < 16 {
        return Node::Leaf(word);
    }
    if kind < 32 {
        return Node::One(kind);
    }
    Node::Two(kind, (word % 0x100_0000_0000_0000) as usize)
}

// The word of a leaf's cell: a column's, or the literal's own.
pub fn leaf(word: u64, row: &[u64], used: usize) -> u64
    requires { LeafSound used (length row.now) word × RowSound used row.now }
    ensures { LeafIs used word row.now result }
{
    if word / 0x100_0000_0000_0000 == 4 {
        let column = (word % 0x100_0000_0000_0000) as usize;
        return row[column];
    }
    word
}

// The truth of a cell's word.
pub fn truth(word: u64) -> bool
    ensures { (stored : List ℕ) → WellFormed (length stored) word → result ≡ to_bool (value_of stored word) }
{
    values::to_bool(ValueRef::from(word))
}

// Whether a two-sided operator is decided by its left operand.
pub fn decided(op: u64, left: u64) -> bool
    ensures { (stored : List ℕ) → WellFormed (length stored) left → result ≡ decides op (value_of stored left) }
{
    if op == 48 {
        return !truth(left);
    }
    if op == 49 {
        return truth(left);
    }
    false
}

// A two-sided operator whose left operand has not decided it.
fn apply(
    rules: Rules,
    op: u64,
    left: u64,
    right: u64,
    text: &mut [u8],
    top: usize,
) -> Result<(u64, usize), Fault>
    requires { (32 ≤ op) × (op < 50) × Room rules top (length text.old) × WellFormed top left × WellFormed top right }
    ensures { Applied text.old text.new top result
        (two_sided rules op (value_of (take top text.old) left) (value_of (take top text.old) right)) }
{
    if op < 47 {
        return operators::binary(rules, op, left, right, text, top);
    }
    Ok((operators::flag(truth(right)), top))
}

// The operand whose last node stands at k: a leaf is read here, with no deeper call.
#[cycle(evaluate_operand)]
fn operand(
    rules: Rules,
    nodes: &[u64],
    k: usize,
    depth: usize,
    row: &[u64],
    text: &mut [u8],
    used: usize,
    top: usize,
) -> Result<(u64, usize), Fault>
    requires { Asks rules used top depth k nodes.now row.now text.old }
    ensures means { Answers rules used top depth k nodes.now row.now text.old text.new result }
    ensures lies { Lies top (node_of (get_or nodes.now k 0)) row.now result }
{
    let word = nodes[k];
    if word < 0x1000_0000_0000_0000 {
        return Ok((leaf(word, row, used), top));
    }
    evaluate(rules, nodes, k, depth, row, text, used, top)
}

// Ast::eval: the tree whose last node stands at k, by recursion with falling depth.
#[cycle(evaluate_operand)]
pub fn evaluate(
    rules: Rules,
    nodes: &[u64],
    k: usize,
    depth: usize,
    row: &[u64],
    text: &mut [u8],
    used: usize,
    top: usize,
) -> Result<(u64, usize), Fault>
    requires { Asks rules used top depth k nodes.now row.now text.old }
    ensures means { Answers rules used top depth k nodes.now row.now text.old text.new result }
    ensures lies { Lies top (node_of (get_or nodes.now k 0)) row.now result }
{
    match node_of(nodes[k]) {
        Node::Leaf(word) => Ok((leaf(word, row, used), top)),
        Node::One(op) => {
            let a = operand(rules, nodes, k - 1, depth - 1, row, text, used, top);
            let Ok((v, t)) = a else {
                return a;
            };
            operators::unary(rules, op, v, t)
        }
        Node::Two(op, l) => {
            let r = k - 1;
            let a = operand(rules, nodes, l, depth - 1, row, text, used, top);
            let Ok((v, t)) = a else {
                return a;
            };
            if decided(op, v) {
                return Ok((operators::flag(truth(v)), t));
            }
            let b = operand(rules, nodes, r, depth - 1, row, text, used, t);
            let Ok((w, u)) = b else {
                return b;
            };
            apply(rules, op, v, w, text, u)
        }
    }
}
