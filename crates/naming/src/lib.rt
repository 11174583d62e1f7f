// The columns of a join, one side: names with their table, and rules.
#![tactic(auto)]

ghost use Rattle.std.specs.Prelude.{◌≡◌, length, take};
ghost use Rattle.naming.specs.OneSide.{name_of, rule_of};
ghost use Rattle.naming.specs.Side.{NameAsks, NameIs, SideAsks, SideIs};

use refusals::Refusal;

// A column's name word in the joined table and the new top: the name is kept where the table name is empty, else it is table name, dot and column name at
// the top. Nothing where it would have over 255 bytes.
pub fn join_name(table: &[u8], word: u64, text: &mut [u8], top: usize) -> Option<(u64, usize)>
    requires { NameAsks word top (length text.old) }
    ensures { NameIs text.old text.new top result (name_of table.now (take top text.old) word) }
{
    if table.len() == 0 {
        return Some((word, top));
    }
    let n = (word % 65536) as usize;
    let long = table.len() + 1 + n;
    if 255 < long {
        return None;
    }
    let start = (word / 65536 % 0x1_0000_0000) as usize;
    let dot = slices::copy(table, text, top);
    text[dot] = b'.';
    let end = slices::copy_up(text, start, n, dot + 1);
    Some((
        0x200_0000_0000_0000 + (top as u64) * 65536 + (long as u64),
        end,
    ))
}

// A column's rule in the joined table; a left join's right side is told by a truth value as in the definition.
pub fn join_rule(rule: u64, nullable: bool) -> u64
    ensures { result ≡ rule_of nullable rule }
{
    if nullable {
        return rules::but_nullable(rule);
    }
    rule
}

// One side's columns, whose rules are made nullable where a truth value says so, as in the definition; the first has this number in the joined table: their names at the top, their words in the joined table's.
// It answers how many words there are so far, and the new top.
pub fn join_side(
    table: &[u8],
    columns: &[u64],
    nullable: bool,
    number: usize,
    text: &mut [u8],
    used: usize,
    words: &mut [u64],
) -> Result<(usize, usize), Refusal>
    requires { SideAsks columns.now text.old words.old number used }
    ensures { SideIs table.now columns.now nullable number used text.old text.new words.old words.new result }
{
    let mut top = used;
    let n = columns.len() / 2;
    for i in 0..n {
        let Some((word, end)) = join_name(table, columns[2 * i], text, top) else {
            return Err(Refusal::TooLong(number + i));
        };
        let at = 2 * (number + i);
        words[at] = word;
        words[at + 1] = join_rule(columns[2 * i + 1], nullable);
        top = end;
    }
    Ok((2 * (number + n), top))
}
