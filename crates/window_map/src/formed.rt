// Whether 512 bytes are a well-formed map.
//
// The parts of the definition, each read once: the start, the unused bytes, the heights, the three words.
//
// C lends the area as a slice, and it is written in `writing`, so its size is a clause of `is_formed`; `Map` hands it on.
ghost use Rattle.std.specs.Prelude.{◌≡◌, [], ◌∷◌, length, take};
ghost use Rattle.fields.specs.Order.{same};
ghost use Rattle.model.specs.Layout.{map_size};
ghost use Rattle.model.specs.MapBytes.{words_formed, area_formed};
ghost use Rattle.window_map.specs.Parts.{room_zero, heights_formed};

use model::layout::{MAP_HEIGHTS_AT, MAP_SIZE, WINDOW_SIZE};

// The bytes of a map, all 512.
#[derive(Clone, Copy)]
struct Map<'a> {
    bytes: &'a [u8],
    ghost whole: { length bytes.now ≡ map_size },
}

impl Map<'_> {
    // "EDM", version 1.
    fn starts_well(self) -> bool
        ensures { result ≡ same (take 4 self.entry.bytes.now) (69 ∷ 68 ∷ 77 ∷ 1 ∷ []) }
    {
        let map = self.bytes;
        (map[0] == 69) & ((map[1] == 68) & ((map[2] == 77) & (map[3] == 1)))
    }

    // Whether the unused bytes are zero.
    fn room_is_zero(self) -> bool
        ensures { result ≡ room_zero self.entry.bytes.now }
    {
        let numbers = spans::copying::is_zero(&self.bytes[12..16]);
        let words = spans::copying::is_zero(&self.bytes[40..64]);
        let end = spans::copying::is_zero(&self.bytes[256..MAP_SIZE]);
        numbers & (words & end)
    }

    // Whether each height's byte is formed, and those above the chain height are absent.
    fn heights_formed(self, downloaded: u32, chain: u32) -> bool
        ensures { result ≡ heights_formed chain downloaded self.entry.bytes.now }
    {
        let mut ok = true;
        for i in 0..WINDOW_SIZE {
            let byte = self.bytes[MAP_HEIGHTS_AT + i];
            let height = u64::from(downloaded) + i as u64;
            let formed = crate::cells::is_formed(byte);
            ok = ok & (formed & ((height < u64::from(chain)) | (128 <= byte)));
        }
        ok
    }

    // Whether the three words are the marks of the heights.
    fn words_formed(self) -> bool
        ensures { result ≡ words_formed self.entry.bytes.now }
    {
        let map = self.bytes;
        let first = fields::read_u64(map, 16) == crate::marks::mark(map, MAP_HEIGHTS_AT);
        let second = fields::read_u64(map, 24) == crate::marks::mark(map, 128);
        let third = fields::read_u64(map, 32) == crate::marks::mark(map, 192);
        first & (second & third)
    }
}

// Whether an area of 512 bytes is a well-formed map.
pub fn is_formed(area: &[u8]) -> bool
    requires { length area.now ≡ map_size }
    ensures { result ≡ area_formed area.now }
{
    let map = Map { bytes: area };
    let downloaded = fields::read_u32(area, 4);
    let chain = fields::read_u32(area, 8);
    let start = map.starts_well() & map.room_is_zero();
    start & (map.heights_formed(downloaded, chain) & map.words_formed())
}
