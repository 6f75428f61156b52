// One section's mark set or cleared: the byte of its height, and the word of the 64 heights around it.
//
// The area is written, so its size is a clause and no ghost field.
ghost use Rattle.std.specs.Prelude.{◌≡◌, cond, ◌+◌, ◌*◌, ◌/◌, ◌%◌, ◌^◌, ◌≤◌, ◌<◌, leb, length};
ghost use Rattle.model.specs.Image.{bit};
ghost use Rattle.model.specs.Layout.{map_size};
ghost use Rattle.model.specs.Protocol.{window_size};
ghost use Rattle.model.specs.WindowMap.{map_change};
ghost use Rattle.refusals.specs.Numbers.{number_in};
ghost use Rattle.window_map.specs.Changes.{cell_anew, changeable_at};

use model::layout::{MAP_HEIGHTS_AT, WINDOW_SIZE};
use refusals::refusal::Refusal;

// How many places a height has.
fn places_of(byte: u8) -> u8
    ensures { result ≡ cond (leb 128 byte) 0 (byte / 16) }
{
    if 128 <= byte {
        return 0;
    }
    byte / 16
}

// A height's byte with the mark of a place set or cleared.
fn with_flag(byte: u8, place: u8, stored: bool) -> u8
    requires { (byte < 128) × (place < 3) }
    ensures { result + 2 ^ place * (byte / 2 ^ place % 2) ≡ byte + 2 ^ place * bit stored }
{
    let weight = 1u8 << place;
    let without = byte - weight * (byte / weight % 2);
    if stored {
        return without + weight;
    }
    without
}

// The byte of the i-th height, and the word that marks it.
fn write_cell(map: &mut [u8], i: usize, byte: u8)
    requires { (length map.old ≡ map_size) × (i < window_size) }
    ensures { map.new ≡ cell_anew i byte map.old }
{
    map[MAP_HEIGHTS_AT + i] = byte;
    let word = i / 64;
    crate::marks::word_anew(map, 16 + 8 * word, MAP_HEIGHTS_AT + 64 * word);
}

// The height's index, if the map is well formed, the height in its window and the place one of the height's.
fn changeable_at(map: &[u8], height: u32, place: u8) -> Option<usize>
    ensures { result ≡ changeable_at map.now height place }
{
    if !crate::fits(map) {
        return None;
    }
    let downloaded = fields::read_u32(map, 4);
    if height <= downloaded {
        return None;
    }
    let i = (height - downloaded - 1) as usize;
    if WINDOW_SIZE <= i {
        return None;
    }
    (place < places_of(map[MAP_HEIGHTS_AT + i])).then_some(i)
}

// A section's mark set or cleared, or 12 and the map as it was.
pub fn change(map: &mut [u8], height: u32, place: u8, stored: bool) -> Result<(), Refusal>
    ensures { record { number = number_in result; map = map.new } ≡ map_change stored map.old height place }
{
    let Some(i) = changeable_at(map, height, place) else {
        return Err(Refusal::Map);
    };
    let byte = with_flag(map[MAP_HEIGHTS_AT + i], place, stored);
    write_cell(map, i, byte);
    Ok(())
}
