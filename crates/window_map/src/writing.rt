// All of a map but its heights' bytes.
//
// The area is written, so its size is a clause and no ghost field.
ghost use Rattle.std.specs.Prelude.{◌≡◌, length};
ghost use Rattle.fields.specs.Overwrite.{overwritten};
ghost use Rattle.model.specs.Layout.{map_size};
ghost use Rattle.model.specs.MapBytes.{height_bytes, map_over};
ghost use Rattle.window_map.specs.Around.{numbers_of, words_of};

use model::layout::MAP_HEIGHTS_AT;

// "EDM" and version 1 as one number, then the two heights.
fn write_numbers(map: &mut [u8], downloaded: u32, chain: u32)
    requires { length map.old ≡ map_size }
    ensures { map.new ≡ overwritten 0 (numbers_of downloaded chain) map.old }
{
    fields::write_u32(map, 0, 1162104065);
    fields::write_u32(map, 4, downloaded);
    fields::write_u32(map, 8, chain);
    fields::write_u32(map, 12, 0);
}

// The three words.
fn write_words(map: &mut [u8])
    requires { length map.old ≡ map_size }
    ensures { map.new ≡ overwritten 16 (words_of (height_bytes map.old)) map.old }
{
    crate::marks::word_anew(map, 16, MAP_HEIGHTS_AT);
    crate::marks::word_anew(map, 24, 128);
    crate::marks::word_anew(map, 32, 192);
}

// Start, numbers, the three words and the unused bytes, around the heights' bytes as they stand.
pub fn write_around(map: &mut [u8], downloaded: u32, chain: u32)
    requires { length map.old ≡ map_size }
    ensures { map.new ≡ map_over downloaded chain (height_bytes map.old) }
{
    write_numbers(map, downloaded, chain);
    write_words(map);
    spans::moving::clear(map, 40, 24);
    spans::moving::clear(map, 256, 256);
}
