// The bytes of heights, read from the rows of a view, and a map filled whole.
ghost use Rattle.std.specs.Prelude.{◌≡◌, true, map, ◌+◌, ◌*◌, ◌^◌, ◌≤◌, ◌<◌, length};
ghost use Rattle.fields.specs.Overwrite.{overwritten};
ghost use Rattle.model.specs.Layout.{row_size};
ghost use Rattle.model.specs.Lists.{row_fits, first_height, row_count, view_of};
ghost use Rattle.model.specs.MapBytes.{row_byte};
ghost use Rattle.model.specs.WindowMap.{cell_byte, cell_at, cells_behind, shows, map_fill};
ghost use Rattle.refusals.specs.Numbers.{number_in};
ghost use Rattle.heights.specs.Rows.{row_of, row_at};

use lists::view::View;
use model::layout::{MAP_HEIGHTS_AT, MAP_SIZE, PLACE_SIZE, ROW_SIZE, WINDOW_SIZE};
use refusals::refusal::Refusal;

// The byte of row i, which fits.
pub fn row_byte(view: &[u8], i: usize) -> u8
    requires { (i * row_size + 4 + row_size ≤ length view.now) × (row_fits (row_at i view.now) ≡ true) }
    ensures { result ≡ row_byte (row_at i view.now) }
{
    let at = i * ROW_SIZE + 4;
    let count = view[at];
    if count == 255 {
        return 128;
    }
    count * 16
        + (view[at + PLACE_SIZE] + 2 * (view[at + 2 * PLACE_SIZE] + 2 * view[at + 3 * PLACE_SIZE]))
}

// The index of a height's row, if it has one.
fn row_at_height(view: View, height: u64) -> Option<usize>
    ensures { result ≡ row_of (first_height view.entry.bytes.now) (row_count view.entry.bytes.now) height }
{
    // No height above 2^32 - 1 has one.
    let Ok(height) = u32::try_from(height) else {
        return None;
    };
    let first = heights::rows::first_height(view.bytes);
    let count = heights::rows::row_count(view.bytes);
    heights::rows::row_of(first, count, height)
}

// The byte of a height: 128 above the chain height or without a row.
pub fn height_byte(view: View, chain: u32, height: u64) -> u8
    ensures { result ≡ cell_byte (cell_at (view_of view.entry.bytes.now) chain height) }
{
    if u64::from(chain) < height {
        return 128;
    }
    let Some(row) = row_at_height(view, height) else {
        return 128;
    };
    row_byte(view.bytes, row)
}

// Whether each of `count` heights behind a height, up to the chain height, has a row. Mostly all have, so it ends with the last.
pub fn shows(view: View, chain: u32, behind: u64, count: usize) -> bool
    requires { behind + count < 2 ^ 64 }
    ensures { result ≡ shows (view_of view.entry.bytes.now) chain behind count }
{
    let mut ok = true;
    for i in 0..count {
        let height = behind + i as u64 + 1;
        let has = row_at_height(view, height).is_some();
        ok = ok & ((u64::from(chain) < height) | has);
    }
    ok
}

// Writes the bytes of `count` heights behind a height, from `at` on.
pub fn fill_heights(area: &mut [u8], at: usize, view: View, chain: u32, behind: u64, count: usize)
    requires { (behind + count < 2 ^ 64) × (at + count ≤ length area.old) }
    ensures { area.new ≡ overwritten at (map cell_byte (cells_behind (view_of view.entry.bytes.now) chain behind count)) area.old }
{
    for i in 0..count {
        area[at + i] = height_byte(view, chain, behind + i as u64 + 1);
    }
}

// The whole map from a view, on any 512 bytes; or 12, 8 or 9 and the bytes as they were.
pub fn fill(map: &mut [u8], downloaded: u32, chain: u32, view: &[u8]) -> Result<(), Refusal>
    ensures { record { number = number_in result; map = map.new } ≡ map_fill map.old downloaded chain view.now }
{
    if map.len() != MAP_SIZE {
        return Err(Refusal::Map);
    }
    if !refusals::view::view_fits(view) {
        return Err(Refusal::View);
    }
    let view = View { bytes: view };
    let behind = u64::from(downloaded);
    if !shows(view, chain, behind, WINDOW_SIZE) {
        return Err(Refusal::Unseen);
    }
    fill_heights(map, MAP_HEIGHTS_AT, view, chain, behind, WINDOW_SIZE);
    crate::writing::write_around(map, downloaded, chain);
    Ok(())
}
