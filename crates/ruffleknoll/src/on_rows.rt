// The calls that write rows: the value is the rows written.
ghost use Rattle.ruffleknoll.specs.Calls.{Selects, InnerJoins, LeftJoins, Deletes, Updates, Inserts, TextKept};

use answers::Answer;

// `select`
#[unsafe(no_mangle)]
pub extern "C" fn ruffleknoll_select(
    columns: &[u64],
    rows: &[u64],
    list: &[u64],
    condition: &[u8],
    text: &mut [u8],
    used: usize,
    out: &mut [u64],
) -> Answer
    ensures selects { Selects columns.now rows.now list.now condition.now text.old used out.old out.new result }
    ensures text_kept { TextKept condition.now text.old used text.new }
{
    answers::of_written(
        selecting::select(columns, rows, list, condition, text, used, out),
        used,
    )
}

// `inner_join`
#[unsafe(no_mangle)]
pub extern "C" fn ruffleknoll_inner_join(
    left_columns: &[u64],
    left: &[u64],
    right_columns: &[u64],
    right: &[u64],
    condition: &[u8],
    text: &mut [u8],
    used: usize,
    out: &mut [u64],
) -> Answer
    ensures inner_joins { InnerJoins left_columns.now left.now right_columns.now right.now condition.now text.old used out.old out.new result }
    ensures text_kept { TextKept condition.now text.old used text.new }
{
    answers::of_written(
        joins::inner_join(
            left_columns,
            left,
            right_columns,
            right,
            condition,
            text,
            used,
            out,
        ),
        used,
    )
}

// `left_join`
#[unsafe(no_mangle)]
pub extern "C" fn ruffleknoll_left_join(
    left_columns: &[u64],
    left: &[u64],
    right_columns: &[u64],
    right: &[u64],
    condition: &[u8],
    text: &mut [u8],
    used: usize,
    out: &mut [u64],
) -> Answer
    ensures left_joins { LeftJoins left_columns.now left.now right_columns.now right.now condition.now text.old used out.old out.new result }
    ensures text_kept { TextKept condition.now text.old used text.new }
{
    answers::of_written(
        joins::left_join(
            left_columns,
            left,
            right_columns,
            right,
            condition,
            text,
            used,
            out,
        ),
        used,
    )
}

// `delete`
#[unsafe(no_mangle)]
pub extern "C" fn ruffleknoll_delete(
    columns: &[u64],
    rows: &[u64],
    condition: &[u8],
    text: &mut [u8],
    used: usize,
    out: &mut [u64],
) -> Answer
    ensures deletes { Deletes columns.now rows.now condition.now text.old used out.old out.new result }
    ensures text_kept { TextKept condition.now text.old used text.new }
{
    answers::of_written(
        selecting::delete(columns, rows, condition, text, used, out),
        used,
    )
}

// `update`
#[unsafe(no_mangle)]
pub extern "C" fn ruffleknoll_update(
    columns: &[u64],
    rows: &[u64],
    sets: &[u64],
    condition: &[u8],
    text: &mut [u8],
    used: usize,
    out: &mut [u64],
) -> Answer
    ensures updates { Updates columns.now rows.now sets.now condition.now text.old used out.old out.new result }
    ensures text_kept { TextKept condition.now text.old used text.new }
{
    answers::of_written(
        updating::update(columns, rows, sets, condition, text, used, out),
        used,
    )
}

// `insert`: old and new rows stand under one lifetime, since the earlier of two is handed on as lent.
#[unsafe(no_mangle)]
pub extern "C" fn ruffleknoll_insert<'a>(
    columns: &[u64],
    old: &'a [u64],
    new: &'a [u64],
    text: &[u8],
    used: usize,
    out: &mut [u64],
) -> Answer
    ensures { Inserts columns.now old.now new.now text.now used out.old out.new result }
{
    answers::of_written(inserting::insert(columns, old, new, text, used, out), used)
}
