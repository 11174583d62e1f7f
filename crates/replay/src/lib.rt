// Reading recorded cases (docs/CASES.md). A part that is missing reads as 0 or empty, so that a damaged case differs and does no harm.
#![tactic(auto)]

ghost use Rattle.std.specs.Prelude.{◌≡◌, ◌+◌, ◌*◌, ◌≤◌, ◌<◌, ◌++◌, length, get_or, take};
ghost use Rattle.slices.specs.Bytes.{same_bytes};
ghost use Rattle.slices.specs.Splice.{piece};
ghost use Rattle.replay.specs.Number.{Four, Read, eight_at};
ghost use Rattle.replay.specs.Compare.{is_answer, is_written, rubbish_byte, rubbish_word, output_after, holds_text, is_word};

use refusals::Refusal;

// Standard input and output, as the system numbers them.
const STDIN: i32 = 0;

const STDOUT: i32 = 1;

// A slice of a case: its first byte, how many elements it has, and where the next part starts.
#[derive(Clone, Copy)]
pub struct Field {
    pub start: usize,
    pub count: usize,
    pub next: usize,
}

// A text buffer of a case: its length, its mark, its stored bytes.
#[derive(Clone, Copy)]
pub struct Text {
    pub size: usize,
    pub used: usize,
    pub stored: Field,
}

// The numbers of an answer.
#[derive(Clone, Copy)]
pub struct Expected {
    pub number: u64,
    pub place: u64,
    pub value: u64,
    pub used: u64,
}

// A case from its text on, where an output of bytes follows it: the text, the output's length, the answer's numbers, the written bytes, the new text.
#[derive(Clone, Copy)]
pub struct Rest {
    pub lent: Text,
    pub room: usize,
    pub expected: Expected,
    pub written: Field,
    pub new: Field,
}

// What a case has of a call that writes words: the answer's numbers, whether the output is as it should be, and where the part after its words starts.
#[derive(Clone, Copy)]
pub struct Outcome {
    pub expected: Expected,
    pub written: bool,
    pub next: usize,
}

// A byte of a case as a number; 0 beyond its end.
fn byte(case: &[u8], at: usize) -> u64
    ensures { (result ≡ get_or case.now at 0) × (result < 256) }
{
    if at < case.len() {
        return case[at] as u64;
    }
    0
}

// The number of 4 bytes at a place.
pub fn four(case: &[u8], at: usize) -> u64
    requires { at ≤ length case.now + 64 }
    ensures { Four case.now at result }
{
    let low = byte(case, at) + byte(case, at + 1) * 256;
    let high = byte(case, at + 2) + byte(case, at + 3) * 256;
    low + high * 65536
}

// A place so many bytes later, or the end.
pub fn after(case: &[u8], at: usize, size: usize) -> usize
    requires { at ≤ length case.now }
    ensures { result ≤ length case.now }
{
    if size <= case.len() - at {
        at + size
    } else {
        case.len()
    }
}

// The number of 8 bytes at a place.
pub fn eight(case: &[u8], at: usize) -> u64
    requires { at ≤ length case.now + 32 }
    ensures { result ≡ eight_at case.now at }
{
    let low = four(case, at);
    let high = four(case, at + 4);
    low + high * 0x1_0000_0000
}

// The slice of bytes at a place.
pub fn bytes(case: &[u8], at: usize) -> Field
    requires { at ≤ length case.now }
    ensures { (result.start + result.count ≤ length case.now) × (result.next ≤ length case.now) }
{
    let said = four(case, at) as usize;
    let start = after(case, at, 4);
    let left = case.len() - start;
    if said <= left {
        return Field {
            start,
            count: said,
            next: start + said,
        };
    }
    Field {
        start,
        count: left,
        next: case.len(),
    }
}

// The bytes of a slice.
pub fn part(case: &[u8], field: Field) -> &[u8]
    requires { field.start + field.count ≤ length case.now }
    ensures { result.now ≡ piece field.start field.count case.now }
{
    let start = field.start;
    let end = start + field.count;
    &case[start..end]
}

// The text buffer at a place.
pub fn lent(case: &[u8], at: usize) -> Text
    requires { at ≤ length case.now }
    ensures { (result.stored.start + result.stored.count ≤ length case.now) × (result.stored.next ≤ length case.now) }
{
    Text {
        size: four(case, at) as usize,
        used: eight(case, at + 4) as usize,
        stored: bytes(case, after(case, at, 12)),
    }
}

// The slice of words at a place, put at the start of words; more than it holds are passed over.
pub fn words(case: &[u8], at: usize, words: &mut [u64]) -> Field
    requires { at ≤ length case.now }
    ensures { (result.count ≤ length words.new) × (result.next ≤ length case.now) × (length words.new ≡ length words.old) }
{
    let said = four(case, at) as usize;
    let start = after(case, at, 4);
    let count = said.min(words.len());
    let mut place = start;
    for word in words[..count].iter_mut() {
        *word = eight(case, place);
        place = after(case, place, 8);
    }
    Field {
        start,
        count,
        next: place,
    }
}

// The numbers of the answer at a place.
pub fn answer(case: &[u8], at: usize) -> Expected
    requires { at ≤ length case.now }
    ensures { Read case.now at result }
{
    Expected {
        number: eight(case, at),
        place: eight(case, at + 8),
        value: eight(case, at + 16),
        used: eight(case, at + 24),
    }
}

// All from the text at a place on, where an output of bytes follows it.
pub fn rest_of(case: &[u8], at: usize) -> Rest
    requires { at ≤ length case.now }
    ensures { (result.lent.stored.start + result.lent.stored.count ≤ length case.now) × (result.written.start + result.written.count ≤ length case.now) × (result.new.start + result.new.count ≤ length case.now) }
{
    let lent = lent(case, at);
    let output = lent.stored.next;
    let place = after(case, output, 4);
    let written = bytes(case, after(case, place, 32));
    Rest {
        lent,
        room: four(case, output) as usize,
        expected: answer(case, place),
        written,
        new: bytes(case, written.next),
    }
}

// Whether these are the numbers expected.
pub fn is_answer(e: Expected, number: u64, place: usize, value: usize, used: usize) -> bool
    ensures { result ≡ is_answer e number place value used }
{
    if number != e.number {
        return false;
    }
    if place as u64 != e.place {
        return false;
    }
    if value as u64 != e.value {
        return false;
    }
    used as u64 == e.used
}

// Whether an answer is the one expected, with the mark where it was.
pub fn is_written(e: Expected, answer: Result<usize, Refusal>, used: usize) -> bool
    ensures { result ≡ is_written e answer used }
{
    match answer {
        Ok(n) => is_answer(e, 0, 0, n, used),
        Err(r) => is_answer(e, r.number(), r.place(), 0, used),
    }
}

// The byte of rubbish at a place.
fn rubbish_at(at: usize, rubbish: u64) -> u8
    ensures { result ≡ rubbish_byte rubbish at }
{
    ((at as u64 % 1000 * 7 + rubbish % 1000) % 256) as u8
}

// The text as lent: the stored bytes, and rubbish above them. An output as lent has no stored bytes.
pub fn lend(text: &mut [u8], stored: &[u8], rubbish: u64)
    requires { length stored.now ≤ length text.old }
    ensures { length text.new ≡ length text.old }
{
    for (i, byte) in text.iter_mut().enumerate() {
        *byte = rubbish_at(i, rubbish);
    }
    slices::copy(stored, text, 0);
}

// Whether an output holds the result at its start, and the rubbish that was lent after it.
pub fn output_is(out: &[u8], res: &[u8], rubbish: u64) -> bool
    ensures { result ≡ same_bytes out.now (output_after (rubbish_byte rubbish) res.now (length out.now)) }
{
    let end = res.len();
    if out.len() < end {
        return false;
    }
    if !slices::equal_bytes(&out[..end], res) {
        return false;
    }
    for i in end..out.len() {
        if out[i] != rubbish_at(i, rubbish) {
            return false;
        }
    }
    true
}

// Whether two slices have the same words.
pub fn same_words(a: &[u64], b: &[u64]) -> bool
    ensures { result ≡ same_bytes a.now b.now }
{
    a == b
}

// The word of rubbish at a place.
fn word_at(at: usize, rubbish: u64) -> u64
    ensures { result ≡ rubbish_word rubbish at }
{
    at as u64 % 1000 * 7 + rubbish % 1000
}

// An output of words as lent.
pub fn lend_words(out: &mut [u64], rubbish: u64)
    ensures { length out.new ≡ length out.old }
{
    for (i, word) in out.iter_mut().enumerate() {
        *word = word_at(i, rubbish);
    }
}

// Whether an output of words holds the result at its start, and the rubbish that was lent after it.
pub fn words_are(out: &[u64], res: &[u64], rubbish: u64) -> bool
    ensures { result ≡ same_bytes out.now (output_after (rubbish_word rubbish) res.now (length out.now)) }
{
    let end = res.len();
    if out.len() < end {
        return false;
    }
    if !same_words(&out[..end], res) {
        return false;
    }
    for i in end..out.len() {
        if out[i] != word_at(i, rubbish) {
            return false;
        }
    }
    true
}

// The outcome of a call, where the length of its output stands at this place and the output was lent with this rubbish.
pub fn outcome_of(case: &[u8], at: usize, out: &[u64], rubbish: u64) -> Outcome
    requires { at ≤ length case.now }
    ensures { result.next ≤ length case.now }
{
    let place = after(case, at, 4);
    let mut space = [0u64; 8200];
    let result = words(case, after(case, place, 32), &mut space);
    let count = result.count;
    Outcome {
        expected: answer(case, place),
        written: words_are(out, &space[0..count], rubbish),
        next: result.next,
    }
}

// Whether a text holds the stored bytes at its start.
pub fn keeps(text: &[u8], stored: &[u8]) -> bool
    ensures { result ≡ same_bytes (take (length stored.now) text.now) stored.now }
{
    let end = stored.len();
    if text.len() < end {
        return false;
    }
    slices::equal_bytes(&text[..end], stored)
}

// Whether a text holds the stored bytes at its start, and the new ones from there to the mark or its end.
pub fn text_is(text: &[u8], stored: &[u8], new: &[u8], mark: usize) -> bool
    ensures { result ≡ same_bytes (take mark text.now) (stored.now ++ new.now) }
{
    let start = stored.len();
    let end = mark.min(text.len());
    if end < start {
        return false;
    }
    if !slices::equal_bytes(&text[..start], stored) {
        return false;
    }
    slices::equal_bytes(&text[start..end], new)
}

// Whether a word is the text expected, computed above the mark.
fn holds_text(word: u64, text: &[u8], used: usize, content: &[u8]) -> bool
    ensures { result ≡ holds_text word text.now used content.now }
{
    let start = (word / 65536 % 0x1_0000_0000) as usize;
    let end = start + (word % 65536) as usize;
    if word / 0x100_0000_0000_0000 != 2 {
        return false;
    }
    if start < used {
        return false;
    }
    if text.len() < end {
        return false;
    }
    slices::equal_bytes(&text[start..end], content)
}

// Whether a word is the one expected; a text that was computed is known by its content.
pub fn is_word(e: Expected, word: u64, text: &[u8], used: usize, content: &[u8]) -> bool
    ensures { result ≡ is_word e word text.now used content.now }
{
    if e.number != 0 {
        return false;
    }
    if e.value / 65536 == 0x200_ffff_ffff {
        return holds_text(word, text, used, content);
    }
    word == e.value
}

// Reads the next case from standard input into the start of space, and answers its length, or 0 at the end.
pub fn next_case(space: &mut [u8]) -> usize
    ensures { (result ≤ length space.new) × (length space.new ≡ length space.old) }
{
    let mut head = [0u8; 4];
    if io::read_full(STDIN, &mut head) < 4 {
        return 0;
    }
    let size = four(&head, 0) as usize;
    if space.len() < size {
        return 0;
    }
    let got = io::read_full(STDIN, &mut space[..size]);
    if got == size { size } else { 0 }
}

// `N cases, M differ`
pub fn report(cases: u64, differ: u64) {
    io::print_decimal(STDOUT, cases);
    io::write_all(STDOUT, b" cases, ");
    io::print_decimal(STDOUT, differ);
    io::write_all(STDOUT, b" differ\n");
}

// `case N differs`
fn tell(case: u64) {
    io::write_all(STDOUT, b"case ");
    io::print_decimal(STDOUT, case);
    io::write_all(STDOUT, b" differs\n");
}

// 0 where the case of this number agrees; 1 where it differs, which is told.
pub fn verdict(case: u64, agrees: bool) -> u64
    ensures { result ≤ 1 }
{
    if agrees {
        return 0;
    }
    tell(case);
    1
}

// Reads the cases from standard input one after another; asks of each, under one rubbish and another above the mark and in the output, whether its call
// gives what is expected; and reports how many there are and how many differ.
pub fn each_case<F: FnMut(&[u8], u64) -> bool>(mut replays: F)
    requires { (state : F) (case rubbish : _) → F.pre state case rubbish }
{
    let mut space = [0u8; 262144];
    let mut differ: u64 = 0;
    for number in 0..1000000 {
        let size = next_case(&mut space);
        if size == 0 {
            return report(number, differ);
        }
        let case = &space[..size];
        let one = replays(case, number % 1000);
        let two = replays(case, 77 + number % 1000);
        differ += verdict(number, one && two);
    }
    report(1000000, differ);
}
