// The call insert.
#![tactic(auto)]

ghost use Rattle.std.specs.Prelude.{◌≡◌, length, take};
ghost use Rattle.refusals.specs.Stop.{checked_of};
ghost use Rattle.slices.specs.Splice.{splice};
ghost use Rattle.sorting.specs.Rows.{RowsSound};
ghost use Rattle.inserting.specs.Insert.{sorted_words, lent_stop, keys_stop, InsertIs};
ghost use Rattle.inserting.specs.Sorting.{SortAsks};

use refusals::Refusal;

// What is looked at first: 10, counts, words.
fn check_lent(
    columns: &[u64],
    old: &[u64],
    new: &[u64],
    size: usize,
    used: usize,
) -> Result<(), Refusal>
    ensures { checked_of result ≡ lent_stop columns.now old.now new.now size used }
{
    checks::check_room(size, used, 0)?;
    if !tables::is_table(columns) {
        return Err(Refusal::Malformed(0));
    }
    if !tables::are_rows(columns.len() / 2, old) {
        return Err(Refusal::Malformed(0));
    }
    if !tables::are_rows(columns.len() / 2, new) {
        return Err(Refusal::Malformed(0));
    }
    tables::check_words(columns, &columns[..0], old, new, used)
}

// Then 13 over the new rows, 14 over the old ones, and for each new row 11 before 12.
fn check_keys(
    columns: &[u64],
    stored: &[u8],
    old: &[u64],
    m: usize,
    new: &[u64],
    n: usize,
) -> Result<(), Refusal>
    requires { RowsSound columns.now (length stored.now) m old.now × RowsSound columns.now (length stored.now) n new.now }
    ensures { checked_of result ≡ keys_stop columns.now stored.now old.now m new.now n }
{
    doubles::check_values(columns, stored, new)?;
    doubles::check_old(columns, stored, old, m)?;
    doubles::check_new(columns, stored, old, m, new, n)
}

// Writes old and new rows in key order: each side's numbers are put in order, then the two sides are merged.
fn write_sorted<'a>(
    columns: &[u64],
    stored: &[u8],
    old: &'a [u64],
    m: usize,
    new: &'a [u64],
    n: usize,
    out: &mut [u64],
)
    requires { SortAsks columns.now stored.now old.now m new.now n out.old }
    ensures { out.new ≡ splice out.old 0 (sorted_words columns.now stored.now old.now m new.now n) }
{
    // of a fixed size, since no call may fail for lack of memory
    let mut first = [0usize; 4096];
    arranging::order_rows(columns, stored, old, m, &mut first);
    // of a fixed size, since no call may fail for lack of memory
    let mut second = [0usize; 4096];
    arranging::order_rows(columns, stored, new, n, &mut second);
    merging::merge_rows(columns, stored, old, m, &first, new, n, &second, out);
}

// `insert`: every check comes before the first word is written, since a refused call leaves the output alone.
pub fn insert<'a>(
    columns: &[u64],
    old: &'a [u64],
    new: &'a [u64],
    text: &[u8],
    used: usize,
    out: &mut [u64],
) -> Result<usize, Refusal>
    ensures { InsertIs columns.now (take used text.now) old.now new.now (length text.now) used
        out.old out.new result }
{
    check_lent(columns, old, new, text.len(), used)?;
    let width = columns.len() / 2;
    let m = old.len() / width;
    let n = new.len() / width;
    check_keys(columns, &text[..used], old, m, new, n)?;
    let needed = (m + n) * width;
    if out.len() < needed {
        return Err(Refusal::OutputShort(needed));
    }
    write_sorted(columns, &text[..used], old, m, new, n, out);
    Ok(m + n)
}
