// What calls that write have in common: their answer, and a result written at the start of the output.
#![tactic(auto)]

ghost use Rattle.std.specs.Prelude.{◌≤◌, length};
ghost use Rattle.refusals.specs.Stop.{never};
ghost use Rattle.writing.specs.Writing.{WrittenIs};

use refusals::Refusal;

// Writes bytes at the start of the output, and answers how many.
pub fn write_bytes(res: &[u8], out: &mut [u8]) -> Result<usize, Refusal>
    requires { length res.now ≤ length out.old }
    ensures { WrittenIs out.old out.new result never (length res.now) res.now }
{
    Ok(slices::copy(res, out, 0))
}
