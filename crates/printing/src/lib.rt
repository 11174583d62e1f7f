// The call `print`: a named condition by precedence, Ast::format_with_precedence of expr.rs.
#![tactic(auto)]

ghost use Rattle.std.specs.Prelude.{◌≡◌, ℕ, ◌+◌, ◌<◌, length, take};
ghost use Rattle.refusals.specs.Stop.{checked_of};
ghost use Rattle.conditions.specs.Ast.{Tree};
ghost use Rattle.nodes.specs.declared.Allowed.TheVariants.{Named};
ghost use Rattle.forms.specs.Form.{tree, parsed};
ghost use Rattle.printing.specs.Print.{is_unprintable, texts_stop, PrintIs};
ghost use Rattle.printing.specs.Prepare.{TextInside, PreparedIs};

use nodes::Allowed;
use refusals::Refusal;

// Whether the node at an offset is a text literal with a byte of 128 or more.
fn is_unprintable(b: &[u8], at: usize, stored: &[u8]) -> bool
    requires { (at < length b.now) × TextInside stored.now b.now at }
    ensures { result ≡ is_unprintable stored.now b.now at }
{
    if nodes::wide(b[at]) != 2 {
        return false;
    }
    let word = nodes::leaf_word(b, at, 2);
    let start = (word / 65536 % 0x1_0000_0000) as usize;
    let end = start + (word % 65536) as usize;
    quoting::has_high(&stored[start..end])
}

// Refusal 15 over the literals of a condition whose form was accepted.
fn check_texts(b: &[u8], stored: &[u8]) -> Result<(), Refusal>
    requires { (t : Tree ℕ) × (parsed Named (length stored.now) b.now ≡ tree t) }
    ensures { checked_of result ≡ texts_stop stored.now b.now 64 0 }
{
    let mut at: usize = 0;
    // a while loop, since it steps by a node's length
    while at < b.len() {
        if is_unprintable(b, at, stored) {
            return Err(Refusal::NotPrintable(at));
        }
        let body = nodes::body_of(nodes::wide(b[at]));
        at = at + 1 + body;
    }
    Ok(())
}

// All that is looked at before the output: the table of nodes and how many there are, or what stops it.
fn prepare(condition: &[u8], text: &[u8], used: usize, nodes: &mut [u64]) -> Result<usize, Refusal>
    requires { length nodes.old ≡ 64 }
    ensures { PreparedIs condition.now (take used text.now) (length text.now) used nodes.new result }
{
    checks::check_room(text.len(), used, 0)?;
    let n = forms::scan(Allowed::Named, condition, used, nodes)?;
    check_texts(condition, &text[..used])?;
    Ok(n)
}

// `print`: the text is counted with no output first, since a refused call leaves the output alone.
pub fn print(condition: &[u8], text: &[u8], used: usize, out: &mut [u8]) -> Result<usize, Refusal>
    ensures { PrintIs condition.now (take used text.now) (length text.now) used out.old out.new result }
{
    // of a fixed size, since no call may fail for lack of memory
    let mut table = [0u64; 64];
    let n = prepare(condition, text, used, &mut table)?;
    // of a fixed size, since no call may fail for lack of memory
    let mut none = [0u8; 0];
    let needed = spelling::print_node(&table, n - 1, 16, 0, &text[..used], &mut none, 0);
    if out.len() < needed {
        return Err(Refusal::OutputShort(needed));
    }
    Ok(spelling::print_node(&table, n - 1, 16, 0, &text[..used], out, 0))
}
