// A map that slides with the downloaded height: the heights that stay keep their bytes, the new ones are filled from a view.
ghost use Rattle.std.specs.Prelude.{◌≡◌, ◌-◌, ◌≤◌, min};
ghost use Rattle.model.specs.Protocol.{window_size};
ghost use Rattle.model.specs.Lists.{view_of};
ghost use Rattle.model.specs.WindowMap.{encode_map, decode_map, slid, slide_refusal, map_slide};
ghost use Rattle.refusals.specs.Numbers.{number_in};
ghost use Rattle.window_map.specs.Slides.{Slidable};

use lists::view::View;
use model::layout::{MAP_HEIGHTS_AT, WINDOW_SIZE};
use refusals::refusal::Refusal;

// How many heights of the window behind `downloaded` the one behind `before` does not reach.
fn new_heights(before: u32, downloaded: u32) -> usize
    requires { before ≤ downloaded }
    ensures { result ≡ min (downloaded - before) window_size }
{
    WINDOW_SIZE.min((downloaded - before) as usize)
}

// 12, 8 or 9, where the map cannot slide.
fn slide_refusal(map: &[u8], downloaded: u32, view: &[u8]) -> Result<(), Refusal>
    ensures { number_in result ≡ slide_refusal map.now downloaded view.now }
{
    if !crate::fits(map) {
        return Err(Refusal::Map);
    }
    let before = fields::read_u32(map, 4);
    if downloaded < before {
        return Err(Refusal::Map);
    }
    if !refusals::view::view_fits(view) {
        return Err(Refusal::View);
    }
    let view = View { bytes: view };
    let chain = fields::read_u32(map, 8);
    let new = new_heights(before, downloaded);
    let behind = u64::from(downloaded) + WINDOW_SIZE as u64 - new as u64;
    if !crate::filling::shows(view, chain, behind, new) {
        return Err(Refusal::Unseen);
    }
    Ok(())
}

// The heights that stay moved down, the new ones written behind them, and the rest around.
fn write_slid(map: &mut [u8], downloaded: u32, view: View)
    requires { Slidable map.old downloaded }
    ensures { map.new ≡ encode_map (slid (decode_map map.old) downloaded (view_of view.entry.bytes.now)) }
{
    let before = fields::read_u32(map, 4);
    let chain = fields::read_u32(map, 8);
    let new = new_heights(before, downloaded);
    let stay = WINDOW_SIZE - new;
    spans::moving::move_down(map, MAP_HEIGHTS_AT + new, MAP_HEIGHTS_AT, stay);
    crate::filling::fill_heights(
        map,
        MAP_HEIGHTS_AT + stay,
        view,
        chain,
        u64::from(downloaded) + stay as u64,
        new,
    );
    crate::writing::write_around(map, downloaded, chain);
}

// The map of the window behind another downloaded height; or 12, 8 or 9 and the map as it was.
pub fn slide(map: &mut [u8], downloaded: u32, view: &[u8]) -> Result<(), Refusal>
    ensures { record { number = number_in result; map = map.new } ≡ map_slide map.old downloaded view.now }
{
    slide_refusal(map, downloaded, view)?;
    write_slid(map, downloaded, View { bytes: view });
    Ok(())
}
