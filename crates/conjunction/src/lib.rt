// The call `with`: AND of an old and a new condition.
#![tactic(auto)]

ghost use Rattle.std.specs.Prelude.{◌≡◌, ◌+◌, ◌≤◌, length};
ghost use Rattle.slices.specs.Splice.{Wrote};
ghost use Rattle.refusals.specs.Stop.{checked_of, counted_from};
ghost use Rattle.nodes.specs.declared.Allowed.TheVariants.{Mixed};
ghost use Rattle.forms.specs.Form.{parsed, form_stop};
ghost use Rattle.conjunction.specs.With.{conjunction, old_stop, each_stop, WithIs};

use nodes::Allowed;
use refusals::Refusal;

// What is wrong with the form of a condition whose bytes begin at an offset.
fn check_form(b: &[u8], used: usize, from: usize) -> Result<(), Refusal>
    requires { from ≤ 448 }
    ensures { checked_of result ≡ counted_from from (form_stop (parsed Mixed used b.now)) }
{
    // of a fixed size, since no call may fail for lack of memory
    let mut table = [0u64; 64];
    match forms::scan(Allowed::Mixed, b, used, &mut table) {
        Ok(_) => Ok(()),
        Err(r) => Err(r.counted_from(from)),
    }
}

// What is wrong with the form of the old condition, which may be empty.
fn check_old(old: &[u8], used: usize) -> Result<(), Refusal>
    ensures { checked_of result ≡ old_stop used old.now }
{
    if old.len() == 0 {
        return Ok(());
    }
    check_form(old, used, 0)
}

// What is wrong with the text, the output, and each condition alone.
fn check_each(
    old: &[u8],
    new: &[u8],
    size: usize,
    used: usize,
    output: usize,
) -> Result<(), Refusal>
    ensures { checked_of result ≡ each_stop size used output old.now new.now }
{
    checks::check_room(size, used, 0)?;
    checks::check_output(output)?;
    check_old(old, used)?;
    check_form(new, used, old.len())
}

// Writes the joined bytes, and returns their length.
fn join(old: &[u8], new: &[u8], whole: &mut [u8]) -> usize
    requires { (length old.now ≤ 448) × (length new.now ≤ 448) × (897 ≤ length whole.old) }
    ensures { Wrote whole.old 0 (conjunction old.now new.now) result whole.new }
{
    let middle = slices::copy(old, whole, 0);
    let end = slices::copy(new, whole, middle);
    if old.len() == 0 {
        return end;
    }
    whole[end] = 48;
    end + 1
}

// `with`: the whole is put together in a buffer of its own, since a refused call leaves the output alone.
pub fn with(
    old: &[u8],
    new: &[u8],
    text: &[u8],
    used: usize,
    out: &mut [u8],
) -> Result<usize, Refusal>
    ensures { WithIs (length text.now) used old.now new.now out.old out.new result }
{
    check_each(old, new, text.len(), used, out.len())?;
    // of a fixed size, since no call may fail for lack of memory
    let mut whole = [0u8; 897];
    let end = join(old, new, &mut whole);
    check_form(&whole[..end], used, 0)?;
    writing::write_bytes(&whole[..end], out)
}
