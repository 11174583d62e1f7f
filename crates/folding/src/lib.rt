// Folding: operators over literals give way to their values.
#![tactic(auto)]

ghost use Rattle.std.specs.Prelude.{◌≡◌, length, take};
ghost use Rattle.operators.specs.Operator.{base};
ghost use Rattle.folding.specs.Call.{PreparedIs, FoldIs, folding};

use nodes::Allowed;
use operators::Rules;
use refusals::Refusal;

// All that is looked at before folding: the table of nodes and how many there are, or what stops it.
fn prepare(
    condition: &[u8],
    size: usize,
    used: usize,
    output: usize,
    nodes: &mut [u64],
) -> Result<usize, Refusal>
    requires { length nodes.old ≡ 64 }
    ensures { PreparedIs condition.now size used output nodes.new result }
{
    checks::check_room(size, used, 32768)?;
    checks::check_output(output)?;
    forms::scan(Allowed::Mixed, condition, used, nodes)
}

// `fold`, with the rules of the base; it answers how many bytes were written, and the new mark. The folded bytes are put together in a buffer of their own, since a refused call leaves the output alone.
pub fn fold(
    condition: &[u8],
    text: &mut [u8],
    used: usize,
    out: &mut [u8],
) -> Result<(usize, usize), Refusal>
    ensures { FoldIs (folding base condition.now (take used text.old) (length text.old) used (length out.old))
        (take used text.old) text.new out.old out.new result }
{
    // of a fixed size, since no call may fail for lack of memory
    let mut table = [0u64; 64];
    let n = prepare(condition, text.len(), used, out.len(), &mut table)?;
    // of a fixed size, since no call may fail for lack of memory
    let mut space = [0u8; 448];
    let folded = shortening::fold_node(
        Rules { limit: 1024 },
        &table,
        n - 1,
        16,
        0,
        text,
        used,
        &mut space,
        0,
    )?;
    slices::copy(&space[..folded.end], out, 0);
    Ok((folded.end, folded.top))
}
