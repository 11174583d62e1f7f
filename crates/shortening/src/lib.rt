// Folding over the table of nodes, operands first.
#![tactic(auto)]

ghost use Rattle.std.specs.Prelude.{ℕ, ◌+◌, take};
ghost use Rattle.conditions.specs.Ast.{Tree};
ghost use Rattle.postfix.specs.Postfix.{width};
ghost use Rattle.replacing.specs.Fold.{fold};
ghost use Rattle.replacing.specs.Walk.{FoldAsks, Gives};

use conditions::Node;
use operators::Rules;
use refusals::Refusal;
use replacing::Folded;

// The tree whose last node stands at k, by recursion with falling depth; its bytes begin at the offset at, and go to the output from end on.
pub fn fold_node(
    rules: Rules,
    nodes: &[u64],
    k: usize,
    depth: usize,
    at: usize,
    text: &mut [u8],
    top: usize,
    out: &mut [u8],
    end: usize,
) -> Result<Folded, Refusal>
    requires { (used : ℕ) × (t : Tree ℕ) × FoldAsks rules used top depth k at end nodes.now text.old out.old t }
    ensures { (used : ℕ) (t : Tree ℕ) → FoldAsks rules used top depth k at end nodes.now text.old out.old t →
        Gives (take end out.old) (at + width t) top text.old text.new out.new result (fold rules at t (take top text.old)) }
{
    match conditions::node_of(nodes[k]) {
        Node::Leaf(word) => {
            let after = postfix::write_leaf(word, out, end);
            Ok(Folded {
                word,
                end: after,
                top,
                next: at + (after - end),
            })
        }
        Node::One(op) => {
            let a = fold_node(rules, nodes, k - 1, depth - 1, at, text, top, out, end)?;
            replacing::fold_one(rules, op, a.word, a.top, a.next, out, end, a.end)
        }
        Node::Two(op, l) => {
            let a = fold_node(rules, nodes, l, depth - 1, at, text, top, out, end)?;
            let b = fold_node(
                rules,
                nodes,
                k - 1,
                depth - 1,
                a.next,
                text,
                a.top,
                out,
                a.end,
            )?;
            replacing::fold_two(
                rules, op, a.word, b.word, text, b.top, b.next, out, end, b.end,
            )
        }
    }
}
