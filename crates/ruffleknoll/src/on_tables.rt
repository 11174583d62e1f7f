// The calls on one row, two rows, and column tables.
ghost use Rattle.std.specs.Prelude.{◌≡◌, true, false};
ghost use Rattle.keys.specs.Key.{earlier_of};
ghost use Rattle.answers.specs.Row.{PartIs};
ghost use Rattle.answers.specs.Earlier.{which_earlier, handed};
ghost use Rattle.ruffleknoll.specs.Calls.{JoinsColumns};

use answers::{Answer, Part};

// `row`: where the row's words lie in the rows.
#[unsafe(no_mangle)]
pub extern "C" fn ruffleknoll_row(rows: &[u64], width: usize, number: usize) -> Part
    ensures { PartIs rows.now width number result }
{
    answers::part_of(rows, width, number)
}

// `earlier`: 1 or 2 for the row that is handed back, 0 for the empty part.
#[unsafe(no_mangle)]
pub extern "C" fn ruffleknoll_earlier(
    columns: &[u64],
    text: &[u8],
    used: usize,
    first: &[u64],
    second: &[u64],
) -> u64
    ensures value { result ≡ which_earlier columns.now text.now used first.now second.now }
    ensures second_value { earlier_of columns.now text.now used first.now second.now ≡ handed result first.now second.now }
{
    answers::which_earlier(columns, text, used, first, second)
}

// `inner_join_columns`: the value is the words written, and the mark moves.
#[unsafe(no_mangle)]
pub extern "C" fn ruffleknoll_inner_join_columns(
    left_name: &[u8],
    left: &[u64],
    right_name: &[u8],
    right: &[u64],
    text: &mut [u8],
    used: usize,
    out: &mut [u64],
) -> Answer
    ensures { JoinsColumns false left_name.now left.now right_name.now right.now text.old used out.old text.new out.new result }
{
    answers::of_moved(
        heads::inner_join_columns(left_name, left, right_name, right, text, used, out),
        used,
    )
}

// `left_join_columns`: the same, and the right columns become nullable.
#[unsafe(no_mangle)]
pub extern "C" fn ruffleknoll_left_join_columns(
    left_name: &[u8],
    left: &[u64],
    right_name: &[u8],
    right: &[u64],
    text: &mut [u8],
    used: usize,
    out: &mut [u64],
) -> Answer
    ensures { JoinsColumns true left_name.now left.now right_name.now right.now text.old used out.old text.new out.new result }
{
    answers::of_moved(
        heads::left_join_columns(left_name, left, right_name, right, text, used, out),
        used,
    )
}
