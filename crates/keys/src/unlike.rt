// Where two runs first differ: a word of each, or where they are the same throughout, the last.
//
// Two runs as in lib.rt: two slices, two places and a size.
ghost use Rattle.std.specs.Prelude.{◌≡◌, cond, ◌+◌, ◌≤◌, eqb, length, take, drop};
ghost use Rattle.fields.specs.Number.{from_be};
ghost use Rattle.keys.specs.Decide.{Decides};

// A word of each run.
#[derive(Clone, Copy)]
pub struct Words {
    pub left: u64,
    pub right: u64,
}

// The words at p of s and at q of t.
pub fn words_at(s: &[u8], p: usize, t: &[u8], q: usize) -> Words
    requires { (p + 8 ≤ length s.now) × (q + 8 ≤ length t.now) }
    ensures { (result.left ≡ from_be (take 8 (drop p s.now))) × (result.right ≡ from_be (take 8 (drop q t.now))) }
{
    let left = fields::read_u64(s, p);
    let right = fields::read_u64(t, q);
    Words { left, right }
}

// The words in front where they differ, those behind where not.
pub fn first_unlike(front: Words, behind: Words) -> Words
    ensures { result ≡ cond (eqb front.left front.right) behind front }
{
    if front.left != front.right {
        return front;
    }
    behind
}

// The usual size of an id. Straight through, so that the cost is the same wherever two ids differ: a word is chosen, not
// branched to.
pub fn unlike_32(s: &[u8], p: usize, t: &[u8], q: usize) -> Words
    requires { (p + 32 ≤ length s.now) × (q + 32 ≤ length t.now) }
    ensures { Decides result.left result.right (take 32 (drop p s.now)) (take 32 (drop q t.now)) }
{
    let first = words_at(s, p, t, q);
    let second = words_at(s, p + 8, t, q + 8);
    let third = words_at(s, p + 16, t, q + 16);
    let fourth = words_at(s, p + 24, t, q + 24);
    first_unlike(first, first_unlike(second, first_unlike(third, fourth)))
}

// Word by word. The last word overlaps the one before it: what it reads again is the same in both.
pub fn unlike_words(s: &[u8], p: usize, t: &[u8], q: usize, size: usize) -> Words
    requires { (8 ≤ size) × ((p + size ≤ length s.now) × (q + size ≤ length t.now)) }
    ensures { Decides result.left result.right (take size (drop p s.now)) (take size (drop q t.now)) }
{
    let last = size - 8;
    let mut i = 0;
    // `step_by(8)` was tried: 36 instructions more, and 6.2 ns for 33 bytes in place of 4.3 to 5.2.
    while i < last {
        let words = words_at(s, p + i, t, q + i);
        if words.left != words.right {
            return words;
        }
        i += 8;
    }
    words_at(s, p + last, t, q + last)
}

// Byte by byte.
pub fn unlike_bytes(s: &[u8], p: usize, t: &[u8], q: usize, size: usize) -> Words
    requires { (p + size ≤ length s.now) × (q + size ≤ length t.now) }
    ensures { Decides result.left result.right (take size (drop p s.now)) (take size (drop q t.now)) }
{
    for i in 0..size {
        let left = fields::read(s, p + i, 1);
        let right = fields::read(t, q + i, 1);
        if left != right {
            return Words { left, right };
        }
    }
    Words { left: 0, right: 0 }
}
