// Bytes moved within a slice, 32 at a time, and written into it.
//
// The slice is written, so places and size stand beside it.
ghost use Rattle.std.specs.Prelude.{◌≡◌, ◌+◌, ◌-◌, ◌≤◌, length};
ghost use Rattle.fields.specs.Zero.{zeros};
ghost use Rattle.fields.specs.Overwrite.{overwritten};
ghost use Rattle.spans.specs.Move.{moved};

// N bytes moved. All are read before one is written, so the two places may overlap either way.
fn move_part<const N: usize>(s: &mut [u8], from: usize, to: usize)
    requires { (from + N ≤ length s.old) × (to + N ≤ length s.old) }
    ensures { s.new ≡ moved from to N s.old }
{
    let part: [u8; N] = s[from..from + N].try_into().unwrap();
    s[to..to + N].copy_from_slice(&part);
}

// Up to 8 bytes moved: read as one number before they are written.
fn move_word(s: &mut [u8], from: usize, to: usize, size: usize)
    requires { (size ≤ 8) × ((from + size ≤ length s.old) × (to + size ≤ length s.old)) }
    ensures { s.new ≡ moved from to size s.old }
{
    let word = fields::read(s, from, size);
    fields::write(s, to, size, word);
}

// Words moved up, from the last on, while there are more bytes than one word. Answers how many are left. Counted by hand, as the
// second loop goes on where the first one stopped.
fn move_words_up(s: &mut [u8], from: usize, to: usize, size: usize) -> usize
    requires { (from ≤ to) × (to + size ≤ length s.old) }
    ensures upper_bound { (result ≤ size) × (result ≤ 8) }
    ensures s_after { s.new ≡ moved (from + result) (to + result) (size - result) s.old }
{
    let mut left = size;
    while 32 <= left {
        left -= 32;
        move_part::<32>(s, from + left, to + left);
    }
    while 8 < left {
        left -= 8;
        move_part::<8>(s, from + left, to + left);
    }
    left
}

// The `size` bytes from `from` on moved up to `to`, by words, the first word read before the others are written and written over
// what they left. With `copy_within`, one id announced into 1,000 takes twice as long.
pub fn move_up(s: &mut [u8], from: usize, to: usize, size: usize)
    requires { (from ≤ to) × (to + size ≤ length s.old) }
    ensures { s.new ≡ moved from to size s.old }
{
    if size < 8 {
        move_word(s, from, to, size);
        return;
    }
    let first = fields::read_u64(s, from);
    move_words_up(s, from, to, size);
    fields::write_u64(s, to, first);
}

// Words moved down, from the first on, while there are more bytes than one word. Answers how many are done. Counted by hand, as
// the second loop goes on where the first one stopped.
fn move_words_down(s: &mut [u8], from: usize, to: usize, size: usize) -> usize
    requires { (to ≤ from) × (from + size ≤ length s.old) }
    ensures upper_bound { (result ≤ size) × (size ≤ result + 8) }
    ensures s_after { s.new ≡ moved from to result s.old }
{
    let mut done = 0;
    while 32 <= size - done {
        move_part::<32>(s, from + done, to + done);
        done += 32;
    }
    while 8 < size - done {
        move_part::<8>(s, from + done, to + done);
        done += 8;
    }
    done
}

// The `size` bytes from `from` on moved down to `to`, by words, the last word read before the others are written and written over
// what they left. With `copy_within`, which ends in a loop over bytes, a pass that drops records takes twice as long, and the
// archive wants memmove.
pub fn move_down(s: &mut [u8], from: usize, to: usize, size: usize)
    requires { (to ≤ from) × (from + size ≤ length s.old) }
    ensures { s.new ≡ moved from to size s.old }
{
    if size < 8 {
        move_word(s, from, to, size);
        return;
    }
    let before = size - 8;
    let last = fields::read_u64(s, from + before);
    move_words_down(s, from, to, size);
    fields::write_u64(s, to + before, last);
}

// `new` written from `at` on, by words: 8 bytes at least. The last word is written over the end of the one before it. Counted by
// hand, as `keys::unlike` counts its words.
fn overwrite_words(s: &mut [u8], at: usize, new: &[u8])
    requires { (8 ≤ length new.now) × (at + length new.now ≤ length s.old) }
    ensures { s.new ≡ overwritten at new.now s.old }
{
    let last = new.len() - 8;
    let mut done = 0;
    while done < last {
        let word = fields::read_u64(new, done);
        fields::write_u64(s, at + done, word);
        done += 8;
    }
    let word = fields::read_u64(new, last);
    fields::write_u64(s, at + last, word);
}

// The same of any bytes; few go by words.
pub fn overwrite(s: &mut [u8], at: usize, new: &[u8])
    requires { at + length new.now ≤ length s.old }
    ensures { s.new ≡ overwritten at new.now s.old }
{
    if (8 <= new.len()) & (new.len() <= 64) {
        overwrite_words(s, at, new);
        return;
    }
    let end = at + new.len();
    crate::copying::copy(new, &mut s[at..end]);
}

// `size` zeros written from `at` on.
pub fn clear(s: &mut [u8], at: usize, size: usize)
    requires { at + size ≤ length s.old }
    ensures { s.new ≡ overwritten at (zeros size) s.old }
{
    let end = at + size;
    crate::copying::fill_zero(&mut s[at..end]);
}
