// The entries of F-1's map of the window, exported as those in lib.rt.
ghost use Rattle.std.specs.Prelude.{◌≡◌, true, false};
ghost use Rattle.model.specs.WindowMap.{map_fill, map_change, map_slide, map_passable};

use request_keeper::map::Passable;

// The whole map filled from a view, on any 512 bytes. Answers 0, 12, 8 or 9.
#[unsafe(no_mangle)]
pub extern "C" fn request_keeper_map_fill(
    map: &mut [u8],
    downloaded: u32,
    chain: u32,
    view: &[u8],
) -> u32
    ensures { record { number = result; map = map.new } ≡ map_fill map.old downloaded chain view.now }
{
    request_keeper::map::request_keeper_map_fill(map, downloaded, chain, view)
}

// A section has come into the store. Answers 0 or 12.
#[unsafe(no_mangle)]
pub extern "C" fn request_keeper_map_arrived(map: &mut [u8], height: u32, place: u8) -> u32
    ensures { record { number = result; map = map.new } ≡ map_change true map.old height place }
{
    request_keeper::map::request_keeper_map_arrived(map, height, place)
}

// The store has pruned a section. Answers 0 or 12.
#[unsafe(no_mangle)]
pub extern "C" fn request_keeper_map_pruned(map: &mut [u8], height: u32, place: u8) -> u32
    ensures { record { number = result; map = map.new } ≡ map_change false map.old height place }
{
    request_keeper::map::request_keeper_map_pruned(map, height, place)
}

// The map slides up to a downloaded height, and the new heights are filled from a view. Answers 0, 12, 8 or 9.
#[unsafe(no_mangle)]
pub extern "C" fn request_keeper_map_slide(map: &mut [u8], downloaded: u32, view: &[u8]) -> u32
    ensures { record { number = result; map = map.new } ≡ map_slide map.old downloaded view.now }
{
    request_keeper::map::request_keeper_map_slide(map, downloaded, view)
}

// How many heights can be passed, or 12. Reads only.
#[unsafe(no_mangle)]
pub extern "C" fn request_keeper_map_passable(map: &[u8]) -> Passable
    ensures { record { number = result.number; heights = result.heights } ≡ map_passable map.now }
{
    request_keeper::map::request_keeper_map_passable(map)
}
