// The calls on conditions.
ghost use Rattle.ruffleknoll.specs.Calls.{Evaluates, Folds, Binds, Conjoins, Prints};

use answers::Answer;

// `evaluate`: the value is the cell's word.
#[unsafe(no_mangle)]
pub extern "C" fn ruffleknoll_evaluate(
    condition: &[u8],
    row: &[u64],
    text: &mut [u8],
    used: usize,
) -> Answer
    ensures { Evaluates condition.now row.now text.old used text.new result }
{
    answers::of_evaluated(evaluation::evaluate(condition, row, text, used), used)
}

// `fold`: the value is the bytes written, and the mark moves.
#[unsafe(no_mangle)]
pub extern "C" fn ruffleknoll_fold(
    condition: &[u8],
    text: &mut [u8],
    used: usize,
    out: &mut [u8],
) -> Answer
    ensures { Folds condition.now text.old used out.old text.new out.new result }
{
    answers::of_moved(folding::fold(condition, text, used, out), used)
}

// `bind`: the value is the bytes written.
#[unsafe(no_mangle)]
pub extern "C" fn ruffleknoll_bind(
    condition: &[u8],
    columns: &[u64],
    text: &[u8],
    used: usize,
    out: &mut [u8],
) -> Answer
    ensures { Binds condition.now columns.now text.now used out.old out.new result }
{
    answers::of_written(binding::bind(condition, columns, text, used, out), used)
}

// `with`: the value is the bytes written.
#[unsafe(no_mangle)]
pub extern "C" fn ruffleknoll_with(
    old: &[u8],
    new: &[u8],
    text: &[u8],
    used: usize,
    out: &mut [u8],
) -> Answer
    ensures { Conjoins old.now new.now text.now used out.old out.new result }
{
    answers::of_written(conjunction::with(old, new, text, used, out), used)
}

// `print`: the value is the bytes written.
#[unsafe(no_mangle)]
pub extern "C" fn ruffleknoll_print(
    condition: &[u8],
    text: &[u8],
    used: usize,
    out: &mut [u8],
) -> Answer
    ensures { Prints condition.now text.now used out.old out.new result }
{
    answers::of_written(printing::print(condition, text, used, out), used)
}
