// The columns of a join.
#![tactic(auto)]

ghost use Rattle.std.specs.Prelude.{◌≡◌, true, false, length, take};
ghost use Rattle.refusals.specs.Stop.{checked_of};
ghost use Rattle.heads.specs.Heads.{head_stop, head, HeadIs};

use refusals::Refusal;

// All that is looked at before a name is joined.
fn check_sides(
    left_name: &[u8],
    left: &[u64],
    right_name: &[u8],
    right: &[u64],
    size: usize,
    used: usize,
) -> Result<(), Refusal>
    ensures { checked_of result ≡ head_stop left_name.now left.now right_name.now right.now size used }
{
    checks::check_room(size, used, 32768)?;
    if !tables::is_table(left) {
        return Err(Refusal::Malformed(0));
    }
    if !tables::is_table(right) {
        return Err(Refusal::Malformed(0));
    }
    if 32 < left.len() / 2 + right.len() / 2 {
        return Err(Refusal::Malformed(0));
    }
    if 255 < left_name.len() {
        return Err(Refusal::TextOutside(0));
    }
    if 255 < right_name.len() {
        return Err(Refusal::TextOutside(0));
    }
    tables::check_words(left, right, &left[..0], &right[..0], used)
}

// Both calls, told apart by a truth value as in their definition; they answer how many words were written, and the new mark: the words are put together in a table of their own, since a refused call leaves the output alone.
fn join_columns(
    nullable: bool,
    left_name: &[u8],
    left: &[u64],
    right_name: &[u8],
    right: &[u64],
    text: &mut [u8],
    used: usize,
    out: &mut [u64],
) -> Result<(usize, usize), Refusal>
    ensures { HeadIs (head nullable left_name.now left.now right_name.now right.now (take used text.old)
        (length text.old) used (length out.old)) (take used text.old) text.new out.old out.new result }
{
    check_sides(left_name, left, right_name, right, text.len(), used)?;
    // of a fixed size, since no call may fail for lack of memory
    let mut words = [0u64; 64];
    let (_, middle) = naming::join_side(left_name, left, false, 0, text, used, &mut words)?;
    let n = left.len() / 2;
    let (count, top) = naming::join_side(right_name, right, nullable, n, text, middle, &mut words)?;
    if out.len() < count {
        return Err(Refusal::OutputShort(count));
    }
    slices::copy(&words[..count], out, 0);
    Ok((count, top))
}

// `inner_join_columns`; C calls this and `left_join_columns` apart, so they stay two.
pub fn inner_join_columns(
    left_name: &[u8],
    left: &[u64],
    right_name: &[u8],
    right: &[u64],
    text: &mut [u8],
    used: usize,
    out: &mut [u64],
) -> Result<(usize, usize), Refusal>
    ensures { HeadIs (head false left_name.now left.now right_name.now right.now (take used text.old)
        (length text.old) used (length out.old)) (take used text.old) text.new out.old out.new result }
{
    join_columns(false, left_name, left, right_name, right, text, used, out)
}

// `left_join_columns`
pub fn left_join_columns(
    left_name: &[u8],
    left: &[u64],
    right_name: &[u8],
    right: &[u64],
    text: &mut [u8],
    used: usize,
    out: &mut [u64],
) -> Result<(usize, usize), Refusal>
    ensures { HeadIs (head true left_name.now left.now right_name.now right.now (take used text.old)
        (length text.old) used (length out.old)) (take used text.old) text.new out.old out.new result }
{
    join_columns(true, left_name, left, right_name, right, text, used, out)
}
