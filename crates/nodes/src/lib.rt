// A node of a condition, read off the postfix bytes: its kind, its body, its word and its text.
#![tactic(auto)]

ghost use Rattle.std.specs.Prelude.{◌≡◌, ◌+◌, ◌<◌, ◌≤◌, ◌^◌, length};
ghost use Rattle.nodes.specs.Kind.{is_kind, known, body_of, leaf_word, text_fits, two, four};

// Which column nodes a condition may have.
#[derive(Clone, Copy)]
pub enum Allowed {
    Named,
    Bound,
    Mixed,
}

// Whether a number is a node's kind.
fn is_kind(k: u64) -> bool
    ensures { result ≡ is_kind k }
{
    if k < 5 {
        return true;
    }
    if k < 16 {
        return false;
    }
    if k < 19 {
        return true;
    }
    if k < 32 {
        return false;
    }
    if k < 47 {
        return true;
    }
    if k < 48 {
        return false;
    }
    k < 50
}

// Whether a form allows a kind.
pub fn is_known(form: Allowed, k: u64) -> bool
    ensures { result ≡ known form k }
{
    if !is_kind(k) {
        return false;
    }
    match form {
        Allowed::Named => k != 4,
        Allowed::Bound => k != 3,
        Allowed::Mixed => true,
    }
}

// How many bytes a kind's body has.
pub fn body_of(k: u64) -> usize
    ensures { result ≡ body_of k }
{
    if k == 1 {
        return 4;
    }
    if k == 2 {
        return 6;
    }
    if k == 3 {
        return 6;
    }
    if k == 4 {
        return 1;
    }
    0
}

// A byte as a number.
pub fn wide(b: u8) -> u64
    ensures { (result ≡ b) × (result < 256) }
{
    b as u64
}

// A number of two bytes, the lower one first.
fn two_at(b: &[u8], i: usize) -> u64
    requires { i + 2 ≤ length b.now }
    ensures { (result ≡ two b.now i) × (result < 65536) }
{
    wide(b[i]) + 256 * wide(b[i + 1])
}

// A number of four bytes likewise.
fn four_at(b: &[u8], i: usize) -> u64
    requires { i + 4 ≤ length b.now }
    ensures { (result ≡ four b.now i) × (result < 2 ^ 32) }
{
    two_at(b, i) + 65536 * two_at(b, i + 2)
}

// The word of a leaf.
pub fn leaf_word(b: &[u8], at: usize, k: u64) -> u64
    requires { (at + 1 + body_of k ≤ length b.now) × (k < 16) }
    ensures { result ≡ leaf_word b.now at k }
{
    let kind = k * 0x100_0000_0000_0000;
    if k == 1 {
        return kind + four_at(b, at + 1);
    }
    if k == 2 {
        return kind + (four_at(b, at + 1) * 65536 + two_at(b, at + 5));
    }
    if k == 3 {
        return kind + (four_at(b, at + 1) * 65536 + two_at(b, at + 5));
    }
    if k == 4 {
        return kind + wide(b[at + 1]);
    }
    kind + 0
}

// Whether a text ends at or before the mark, and a name has 1 to 255 bytes besides.
pub fn text_fits(b: &[u8], at: usize, k: u64, used: usize) -> bool
    requires { at + 1 + body_of k ≤ length b.now }
    ensures { result ≡ text_fits used b.now at k }
{
    if k == 2 {
        return (four_at(b, at + 1) + two_at(b, at + 5)) as usize <= used;
    }
    if k == 3 {
        let size = two_at(b, at + 5);
        if used < (four_at(b, at + 1) + size) as usize {
            return false;
        }
        if size < 1 {
            return false;
        }
        return size <= 255;
    }
    true
}
