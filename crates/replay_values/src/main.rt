// Replays the recorded cases of values and columns (docs/CASES.md, calls 1 to 7) from standard input.
#![tactic(auto)]

use cells::ValueRef;
use refusals::Refusal;
use replay::Expected;
use std::cmp::Ordering;

// An accepted answer with a value.
fn gives(e: Expected, value: u64) -> bool {
    e.number == 0 && e.place == 0 && e.value == value
}

// What a check found is the refusal expected, or none.
fn agrees(checked: Result<(), Refusal>, e: Expected) -> bool {
    match checked {
        Ok(()) => gives(e, 0),
        Err(r) => r.number() == e.number && r.place() as u64 == e.place,
    }
}

// An order as the cases tell it.
fn number_of(order: Ordering) -> u64 {
    match order {
        Ordering::Less => 0,
        Ordering::Equal => 1,
        Ordering::Greater => 2,
    }
}

// A truth value as the cases tell it.
fn flag(boolean: bool) -> u64 {
    if boolean { 1 } else { 0 }
}

// The number of two cells' order, or 3 where a cell is refused or equality says otherwise.
fn order_in(a: u64, b: u64, stored: &[u8]) -> u64 {
    let Ok(()) = cells::check_cell(a, stored.len(), 0) else {
        return 3;
    };
    let Ok(()) = cells::check_cell(b, stored.len(), 0) else {
        return 3;
    };
    let order = number_of(values::compare_cells(a, b, stored));
    let equal = values::equal_cells(a, b, stored);
    if equal == (order == 1) { order } else { 3 }
}

// Call 1: the order of two cells.
fn compared(case: &[u8]) -> bool {
    if case.len() < 32 {
        return false;
    }
    let a = replay::eight(case, 4);
    let b = replay::eight(case, 12);
    let field = replay::bytes(case, 32);
    let start = field.start;
    let end = start + field.count;
    let e = replay::answer(case, field.next);
    gives(e, order_in(a, b, &case[start..end]))
}

// Call 2: the truth of a cell.
fn judged(case: &[u8]) -> bool {
    let truth = values::to_bool(ValueRef::from(replay::eight(case, 4)));
    gives(
        replay::answer(case, replay::after(case, 0, 12)),
        flag(truth),
    )
}

// Call 3: the fault of a cell's word. Read and written back, a sound word is the same.
fn cell_checked(case: &[u8]) -> bool {
    let word = replay::eight(case, 4);
    let used = replay::eight(case, 12) as usize;
    let e = replay::answer(case, replay::after(case, 0, 20));
    if cells::is_cell(word) && u64::from(ValueRef::from(word)) != word {
        return false;
    }
    agrees(cells::check_cell(word, used, 0), e)
}

// Call 4: the fault of a column's two words.
fn column_checked(case: &[u8]) -> bool {
    let name = replay::eight(case, 4);
    let rule = replay::eight(case, 12);
    let used = replay::eight(case, 20) as usize;
    let e = replay::answer(case, replay::after(case, 0, 28));
    agrees(columns::check_column(name, rule, used, 0), e)
}

// Call 5: a value for a column.
fn validated(case: &[u8]) -> bool {
    let valid = rules::is_valid_value(
        replay::eight(case, 4),
        ValueRef::from(replay::eight(case, 12)),
    );
    gives(
        replay::answer(case, replay::after(case, 0, 20)),
        flag(valid),
    )
}

// Call 6: a rule made nullable.
fn made_nullable(case: &[u8]) -> bool {
    let rule = rules::but_nullable(replay::eight(case, 4));
    gives(replay::answer(case, replay::after(case, 0, 12)), rule)
}

// The number of the column of a name, or the count of columns; one more where they are refused.
fn column_in(columns: &[u64], stored: &[u8], name: &[u8]) -> u64 {
    let count = (columns.len() / 2) as u64;
    let Ok(()) = columns::check_columns(columns, stored.len(), 0) else {
        return count + 1;
    };
    match columns::find_column(columns, stored, name) {
        Some(number) => number.0 as u64,
        None => count,
    }
}

// Call 7: the column of a name.
fn found(case: &[u8]) -> bool {
    if case.len() < 4 {
        return false;
    }
    let mut space = [0u64; 256];
    let words = replay::words(case, 4, &mut space);
    let count = words.count;
    let text = replay::bytes(case, replay::after(case, words.next, 12));
    let start = text.start;
    let end = start + text.count;
    let name = replay::bytes(case, text.next);
    let from = name.start;
    let to = from + name.count;
    let e = replay::answer(case, name.next);
    gives(
        e,
        column_in(&space[..count], &case[start..end], &case[from..to]),
    )
}

// Whether the case's call, asked again, gives what is expected.
fn replays(case: &[u8]) -> bool {
    if case.len() < 4 {
        return false;
    }
    match case[0] {
        1 => compared(case),
        2 => judged(case),
        3 => cell_checked(case),
        4 => column_checked(case),
        5 => validated(case),
        6 => made_nullable(case),
        7 => found(case),
        _ => false,
    }
}

fn main() {
    // nothing is lent to be filled with rubbish, so that a second time would ask nothing new
    let mut first = false;
    replay::each_case(|case, _| {
        first = !first;
        !first || replays(case)
    });
}
