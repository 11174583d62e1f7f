// Every row of a table tested by a condition, before anything is written.
#![tactic(auto)]

ghost use Rattle.std.specs.Prelude.{◌≡◌, List, ℕ, take};
ghost use Rattle.operators.specs.Operator.{base};
ghost use Rattle.testing.specs.Test.{test, condition_stop, TestAsks};
ghost use Rattle.marking.specs.Marks.{test_of, TableAsks, MarkAsks, MarkedIs};
ghost use Rattle.marking.specs.Whole.{RowIs, TableIs};

use refusals::Refusal;

// The row that has this place: 1 where the condition holds, 0 where it doesn't. No condition leaves the text alone.
fn mark_row(
    nodes: &[u64],
    count: usize,
    row: &[u64],
    text: &mut [u8],
    used: usize,
    place: usize,
) -> Result<usize, Refusal>
    requires { (b : List ℕ) × TestAsks b used count nodes.now row.now text.old }
    ensures { (b : List ℕ) → TestAsks b used count nodes.now row.now text.old →
        RowIs used place count text.old text.new result (test base b used (take used text.old) row.now) }
{
    if count == 0 {
        return Ok(1);
    }
    if let Some(holds) = testing::try_row(nodes, count, row, text, used) {
        return Ok(holds as usize);
    }
    let holds = testing::test_row(nodes, count, row, text, used, place)?;
    Ok(holds as usize)
}

// Every row of the table, in order: its mark, and how many are true; or the first refusal. No condition leaves the text alone.
pub fn mark_rows(
    nodes: &[u64],
    count: usize,
    rows: &[u64],
    width: usize,
    n: usize,
    text: &mut [u8],
    used: usize,
    marks: &mut [u64],
) -> Result<usize, Refusal>
    requires { (b : List ℕ) × MarkAsks b used count n width nodes.now rows.now text.old marks.old }
    ensures by_index { (b : List ℕ) → MarkAsks b used count n width nodes.now rows.now text.old marks.old →
        MarkedIs (test_of base b used (take used text.old) rows.now width) n used text.old text.new
        marks.old marks.new result }
    ensures text_unchanged { count ≡ 0 → text.new ≡ text.old }
{
    let mut k: usize = 0;
    for i in 0..n {
        let start = i * width;
        let mark = mark_row(nodes, count, &rows[start..start + width], text, used, i)?;
        marks[i] = mark as u64;
        k += mark;
    }
    Ok(k)
}

// The same from the condition's bytes on: its own refusal comes before any row's.
pub fn mark_table(
    condition: &[u8],
    rows: &[u64],
    width: usize,
    n: usize,
    text: &mut [u8],
    used: usize,
    marks: &mut [u64],
) -> Result<usize, Refusal>
    requires { TableAsks condition.now used n width rows.now text.old marks.old }
    ensures { TableIs condition.now (condition_stop used width condition.now)
        (test_of base condition.now used (take used text.old) rows.now width) n used
        text.old text.new marks.old marks.new result }
{
    // of a fixed size, since no call may fail for lack of memory
    let mut nodes = [0u64; 64];
    let count = testing::prepare(condition, width, used, &mut nodes)?;
    mark_rows(&nodes, count, rows, width, n, text, used, marks)
}
