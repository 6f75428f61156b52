// The marks of complete heights.
ghost use Rattle.std.specs.Prelude.{◌≡◌, ◌+◌, ◌≤◌, length, take, drop};
ghost use Rattle.model.specs.MapBytes.{byte_mark};
ghost use Rattle.window_map.specs.Changes.{word_anew};

// The mark of the 64 heights whose bytes begin at `at`, the first as the lowest digit.
pub fn mark(map: &[u8], at: usize) -> u64
    requires { at + 64 ≤ length map.now }
    ensures { result ≡ byte_mark (take 64 (drop at map.now)) }
{
    let mut word: u64 = 0;
    for left in (0..64).rev() {
        word = word * 2 + crate::cells::digit(map[at + left]);
    }
    word
}

// The word at `at` made the mark of the 64 heights from `from` on.
pub fn word_anew(map: &mut [u8], at: usize, from: usize)
    requires { (at + 8 ≤ length map.old) × (from + 64 ≤ length map.old) }
    ensures { map.new ≡ word_anew at from map.old }
{
    let word = mark(map, from);
    fields::write_u64(map, at, word);
}
