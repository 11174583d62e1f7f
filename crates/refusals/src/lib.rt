// Refusals: one named case for each number of document 01, each with its place.
#![tactic(auto)]

ghost use Rattle.std.specs.Prelude.{◌≡◌, ◌+◌, ◌<◌, ◌^◌};
ghost use Rattle.refusals.specs.Told.{told};
ghost use Rattle.refusals.specs.Stop.{stop_of, counted_from};

// Named after what was wrong; the comment gives document 01's number.
#[derive(Clone, Copy)]
pub enum Refusal {
    // 1: unknown or forbidden kind, body cut short, operand missing, not exactly one result
    NotACondition(usize),
    // 2: 65th node, or depth 17
    TooLarge(usize),
    // 3: text beyond the mark, or a name of a wrong length
    TextOutside(usize),
    // 4
    NoSuchColumn(usize),
    // 5: Int result outside 32 bits
    Overflow(usize),
    // 6: shift amount outside 0 to 31
    ShiftAmount(usize),
    // 7: joined text or joined name too long
    TooLong(usize),
    // 8: count outside its bound, length no multiple, malformed word
    Malformed(usize),
    // 9: the place is what the whole result takes
    OutputShort(usize),
    // 10: the text, the mark or the room is wrong
    NoRoom(usize),
    // 11: key of a new row already in the table
    KeyTaken(usize),
    // 12: key of a new row equal to an earlier new one's
    KeyRepeated(usize),
    // 13
    NotValid(usize),
    // 14: table given has two rows of one key
    KeyTwice(usize),
    // 15: byte of 128 or more in a text literal to print
    NotPrintable(usize),
}

impl Refusal {
    // Document 01's number.
    pub fn number(self) -> u64
        ensures { result ≡ (told self).number }
    {
        match self {
            Refusal::NotACondition(_) => 1,
            Refusal::TooLarge(_) => 2,
            Refusal::TextOutside(_) => 3,
            Refusal::NoSuchColumn(_) => 4,
            Refusal::Overflow(_) => 5,
            Refusal::ShiftAmount(_) => 6,
            Refusal::TooLong(_) => 7,
            Refusal::Malformed(_) => 8,
            Refusal::OutputShort(_) => 9,
            Refusal::NoRoom(_) => 10,
            Refusal::KeyTaken(_) => 11,
            Refusal::KeyRepeated(_) => 12,
            Refusal::NotValid(_) => 13,
            Refusal::KeyTwice(_) => 14,
            Refusal::NotPrintable(_) => 15,
        }
    }

    // Document 01's place.
    pub fn place(self) -> usize
        ensures { result ≡ (told self).place }
    {
        match self {
            Refusal::NotACondition(p) => p,
            Refusal::TooLarge(p) => p,
            Refusal::TextOutside(p) => p,
            Refusal::NoSuchColumn(p) => p,
            Refusal::Overflow(p) => p,
            Refusal::ShiftAmount(p) => p,
            Refusal::TooLong(p) => p,
            Refusal::Malformed(p) => p,
            Refusal::OutputShort(p) => p,
            Refusal::NoRoom(p) => p,
            Refusal::KeyTaken(p) => p,
            Refusal::KeyRepeated(p) => p,
            Refusal::NotValid(p) => p,
            Refusal::KeyTwice(p) => p,
            Refusal::NotPrintable(p) => p,
        }
    }

    // The same refusal in a part that begins at an offset: its place counts on from there.
    pub fn counted_from(self, from: usize) -> Refusal
        requires { from + (told self).place < 2 ^ 64 }
        ensures { stop_of result ≡ counted_from from (stop_of self) }
    {
        let p = from + self.place();
        match self {
            Refusal::NotACondition(_) => Refusal::NotACondition(p),
            Refusal::TooLarge(_) => Refusal::TooLarge(p),
            Refusal::TextOutside(_) => Refusal::TextOutside(p),
            Refusal::NoSuchColumn(_) => Refusal::NoSuchColumn(p),
            Refusal::Overflow(_) => Refusal::Overflow(p),
            Refusal::ShiftAmount(_) => Refusal::ShiftAmount(p),
            Refusal::TooLong(_) => Refusal::TooLong(p),
            Refusal::Malformed(_) => Refusal::Malformed(p),
            Refusal::OutputShort(_) => Refusal::OutputShort(p),
            Refusal::NoRoom(_) => Refusal::NoRoom(p),
            Refusal::KeyTaken(_) => Refusal::KeyTaken(p),
            Refusal::KeyRepeated(_) => Refusal::KeyRepeated(p),
            Refusal::NotValid(_) => Refusal::NotValid(p),
            Refusal::KeyTwice(_) => Refusal::KeyTwice(p),
            Refusal::NotPrintable(_) => Refusal::NotPrintable(p),
        }
    }
}
