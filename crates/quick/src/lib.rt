// The value of a condition on a row as one word: what most rows need. `conditions::evaluate` hands its answers on through memory; an optional
// word comes back in registers. What this way doesn't tell (refusals, joined texts) the general one is asked for.
#![tactic(auto)]

ghost use Rattle.std.specs.Prelude.{get_or, IfSome};
ghost use Rattle.conditions.specs.Table.{node_of, Asks, Answers, Lies};
ghost use Rattle.quick.specs.Quick.{Stands, Found};

use integers::Fault;
use operators::Rules;

// A leaf, or an operator over two leaves: no call goes deeper.
fn shallow(nodes: &[u64], k: usize, depth: usize, row: &[u64], stored: &[u8]) -> Option<u64>
    requires { Stands depth k nodes.now row.now stored.now }
    ensures { IfSome result (Found depth k nodes.now row.now stored.now) }
{
    let word = nodes[k];
    let op = word / 0x100_0000_0000_0000;
    if op < 16 {
        return Some(conditions::leaf(word, row, stored.len()));
    }
    if op < 32 {
        return None;
    }
    if 47 <= op {
        return None;
    }
    let l = (word % 0x100_0000_0000_0000) as usize;
    let left = nodes[l];
    let right = nodes[k - 1];
    if 0x1000_0000_0000_0000 <= left {
        return None;
    }
    if 0x1000_0000_0000_0000 <= right {
        return None;
    }
    let a = conditions::leaf(left, row, stored.len());
    let b = conditions::leaf(right, row, stored.len());
    wordwise::two(op, a, b, stored)
}

// The operand whose last node stands at k: most are shallow, and those need no deeper call.
#[cycle(operand_word_of)]
fn operand(nodes: &[u64], k: usize, depth: usize, row: &[u64], stored: &[u8]) -> Option<u64>
    requires { Stands depth k nodes.now row.now stored.now }
    ensures { IfSome result (Found depth k nodes.now row.now stored.now) }
{
    if let Some(word) = shallow(nodes, k, depth, row, stored) {
        return Some(word);
    }
    word_of(nodes, k, depth, row, stored)
}

// Ast::eval as a word: the tree whose last node stands at k, by recursion with falling depth, as in `conditions::evaluate`.
#[cycle(operand_word_of)]
pub fn word_of(nodes: &[u64], k: usize, depth: usize, row: &[u64], stored: &[u8]) -> Option<u64>
    requires { Stands depth k nodes.now row.now stored.now }
    ensures { IfSome result (Found depth k nodes.now row.now stored.now) }
{
    let word = nodes[k];
    let op = word / 0x100_0000_0000_0000;
    if op < 16 {
        return Some(conditions::leaf(word, row, stored.len()));
    }
    if op < 32 {
        let a = operand(nodes, k - 1, depth - 1, row, stored)?;
        return wordwise::one(op, a);
    }
    let l = (word % 0x100_0000_0000_0000) as usize;
    let a = operand(nodes, l, depth - 1, row, stored)?;
    if conditions::decided(op, a) {
        return Some(operators::flag(conditions::truth(a)));
    }
    let b = operand(nodes, k - 1, depth - 1, row, stored)?;
    // AND or OR, of which only the right operand is left to look at.
    if 47 <= op {
        return Some(operators::flag(conditions::truth(b)));
    }
    wordwise::two(op, a, b, stored)
}

// `conditions::evaluate`, by the word where there is one.
pub fn evaluate(
    rules: Rules,
    nodes: &[u64],
    k: usize,
    depth: usize,
    row: &[u64],
    text: &mut [u8],
    used: usize,
    top: usize,
) -> Result<(u64, usize), Fault>
    requires { Asks rules used top depth k nodes.now row.now text.old }
    ensures means { Answers rules used top depth k nodes.now row.now text.old text.new result }
    ensures lies { Lies top (node_of (get_or nodes.now k 0)) row.now result }
{
    let Some(word) = word_of(nodes, k, depth, row, &text[..used]) else {
        return conditions::evaluate(rules, nodes, k, depth, row, text, used, top);
    };
    Ok((word, top))
}
