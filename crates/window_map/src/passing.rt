// What can be passed: the run of complete heights at the window's low end, told from the three words.
//
// Three words, as the definition names them; the area's size is asked for once.
ghost use Rattle.std.specs.Prelude.{◌≡◌, ◌+◌, ◌≤◌, length};
ghost use Rattle.model.specs.Image.{field};
ghost use Rattle.model.specs.Layout.{map_size};
ghost use Rattle.model.specs.MapBytes.{trailing_ones, run_over_words};

// The trailing ones of the word at `at`.
fn ones_at(map: &[u8], at: usize) -> u32
    requires { at + 8 ≤ length map.now }
    ensures { (result ≡ trailing_ones (field at 8 map.now)) × (result ≤ 64) }
{
    let word = fields::read_u64(map, at);
    (!word).trailing_zeros()
}

// The run over the three words: a full one goes on into the next.
pub fn passable(map: &[u8]) -> u32
    requires { length map.now ≡ map_size }
    ensures { result ≡ run_over_words (field 16 8 map.now) (field 24 8 map.now) (field 32 8 map.now) }
{
    let first = ones_at(map, 16);
    if first < 64 {
        return first;
    }
    let second = ones_at(map, 24);
    if second < 64 {
        return 64 + second;
    }
    128 + ones_at(map, 32)
}
