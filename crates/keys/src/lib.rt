// The order of byte runs, whether a table's keys rise, and where a key stands in it.
//
// Equal in meaning to a byte by byte comparison (`before` and `same` of fields) and to a walk from the front. Reads only.
// Runs of 32 bytes cost the same wherever they differ; keys of a table, whose first words nearly always differ, cost two
// loads; a search costs a guess and six steps where words are spread evenly, else halving.
//
// Two runs are two slices, two places and a size: parts of slices compare out of line, and a struct of the five would be taken
// apart at once.
#![tactic(auto)]

pub mod find;
pub mod rising;
pub mod unlike;
pub mod words;

ghost use Rattle.std.specs.Prelude.{◌≡◌, ◌+◌, ◌*◌, ◌≤◌, length, take, drop};
ghost use Rattle.fields.specs.Order.{before, same};
ghost use Rattle.keys.specs.Decide.{Decides};

use unlike::Words;

// The entries at the front of a table, all of one width.
#[derive(Clone, Copy)]
pub struct Entries<'a> {
    pub bytes: &'a [u8],
    pub width: usize,
    pub count: usize,
    ghost fits: { count * width ≤ length bytes.now },
}

// Where the `size` bytes of s from p on first differ from those of t from q on. The five stay arguments, here and below: a
// caller has just these, and the literal of a struct would be longer than the call.
pub fn run_unlike(s: &[u8], p: usize, t: &[u8], q: usize, size: usize) -> Words
    requires { (p + size ≤ length s.now) × (q + size ≤ length t.now) }
    ensures { Decides result.left result.right (take size (drop p s.now)) (take size (drop q t.now)) }
{
    if size == 32 {
        return unlike::unlike_32(s, p, t, q);
    }
    if size < 8 {
        return unlike::unlike_bytes(s, p, t, q, size);
    }
    unlike::unlike_words(s, p, t, q, size)
}

// Whether those of s come before those of t.
pub fn run_before(s: &[u8], p: usize, t: &[u8], q: usize, size: usize) -> bool
    requires { (p + size ≤ length s.now) × (q + size ≤ length t.now) }
    ensures { result ≡ before (take size (drop p s.now)) (take size (drop q t.now)) }
{
    let words = run_unlike(s, p, t, q, size);
    words.left < words.right
}

// Whether they are the same.
pub fn run_same(s: &[u8], p: usize, t: &[u8], q: usize, size: usize) -> bool
    requires { (p + size ≤ length s.now) × (q + size ≤ length t.now) }
    ensures { result ≡ same (take size (drop p s.now)) (take size (drop q t.now)) }
{
    let words = run_unlike(s, p, t, q, size);
    words.left == words.right
}

// Where keys of a table first differ: nearly always in their first words.
pub fn key_unlike(s: &[u8], p: usize, t: &[u8], q: usize, size: usize) -> Words
    requires { (8 ≤ size) × ((p + size ≤ length s.now) × (q + size ≤ length t.now)) }
    ensures { Decides result.left result.right (take size (drop p s.now)) (take size (drop q t.now)) }
{
    let first = unlike::words_at(s, p, t, q);
    if first.left != first.right {
        return first;
    }
    run_unlike(s, p, t, q, size)
}

// Which of two keys of a table comes first. Small enough to be inlined into a loop, where keys that rise take one branch
// each.
pub fn comes_before(s: &[u8], p: usize, t: &[u8], q: usize, size: usize) -> bool
    requires { (8 ≤ size) × ((p + size ≤ length s.now) × (q + size ≤ length t.now)) }
    ensures { result ≡ before (take size (drop p s.now)) (take size (drop q t.now)) }
{
    let first = unlike::words_at(s, p, t, q);
    if first.left < first.right {
        return true;
    }
    if first.right < first.left {
        return false;
    }
    run_before(s, p, t, q, size)
}
