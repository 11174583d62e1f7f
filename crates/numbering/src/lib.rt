// Binding, one leaf: a column name gives way to the number of the first column of that name.
#![tactic(auto)]

ghost use Rattle.conditions.specs.Ast.{leaf};
ghost use Rattle.numbering.specs.Asked.{LeafAsks};
ghost use Rattle.numbering.specs.Walk.{Binds};

use refusals::Refusal;

// A leaf bound, with the place after its bytes and the offset after the leaf itself: a name, of 7 bytes, gives way to its column's number, of 2; any other leaf is written as it is.
pub fn bind_leaf(
    word: u64,
    columns: &[u64],
    stored: &[u8],
    at: usize,
    out: &mut [u8],
    end: usize,
) -> Result<(usize, usize), Refusal>
    requires { LeafAsks stored.now columns.now out.old word at end }
    ensures { Binds stored.now columns.now out.old out.new at end (leaf word) result }
{
    let kind = word / 0x100_0000_0000_0000;
    if kind != 3 {
        let next = at + 1 + nodes::body_of(kind);
        return Ok((postfix::write_leaf(word, out, end), next));
    }
    let start = (word / 65536 % 0x1_0000_0000) as usize;
    let past = start + (word % 65536) as usize;
    let Some(number) = columns::find_column(columns, stored, &stored[start..past]) else {
        return Err(Refusal::NoSuchColumn(at));
    };
    let bound = 0x400_0000_0000_0000 + number.0 as u64;
    Ok((postfix::write_leaf(bound, out, end), at + 7))
}
