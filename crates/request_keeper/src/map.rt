// The entries of F-1's map of the window, on the 512 bytes that a shell keeps beside its core.
//
// Each is one equation with its definition in model/specs/WindowMap.antt, which the theorem over lists of the map's calls
// speaks of. A refused call leaves every byte of the map. C calls all five, so that arrived and pruned are two.
//
// Numbers and slices one by one, as C gives them.
ghost use Rattle.std.specs.Prelude.{◌≡◌, true, false};
ghost use Rattle.model.specs.WindowMap.{map_fill, map_change, map_slide, map_passable};
ghost use Rattle.refusals.specs.Numbers.{number_in};

use refusals::refusal::Refusal;

// The number of a refusal or 0, and how many heights can be passed.
#[repr(C)]
#[derive(Clone, Copy)]
pub struct Passable {
    pub number: u32,
    pub heights: u32,
}

// The number of a refusal, or 0.
fn number_of(answer: Result<(), Refusal>) -> u32
    ensures { result ≡ number_in answer }
{
    match answer {
        Ok(()) => 0,
        Err(refusal) => refusal.number(),
    }
}

// The whole map filled from a view, on any 512 bytes. Answers 0, 12, 8 or 9.
pub fn request_keeper_map_fill(map: &mut [u8], downloaded: u32, chain: u32, view: &[u8]) -> u32
    ensures { record { number = result; map = map.new } ≡ map_fill map.old downloaded chain view.now }
{
    number_of(window_map::filling::fill(map, downloaded, chain, view))
}

// A section has come into the store. Answers 0 or 12.
pub fn request_keeper_map_arrived(map: &mut [u8], height: u32, place: u8) -> u32
    ensures { record { number = result; map = map.new } ≡ map_change true map.old height place }
{
    number_of(window_map::changing::change(map, height, place, true))
}

// The store has pruned a section. Answers 0 or 12.
pub fn request_keeper_map_pruned(map: &mut [u8], height: u32, place: u8) -> u32
    ensures { record { number = result; map = map.new } ≡ map_change false map.old height place }
{
    number_of(window_map::changing::change(map, height, place, false))
}

// The map slides up to a downloaded height, and the new heights are filled from a view. Answers 0, 12, 8 or 9.
pub fn request_keeper_map_slide(map: &mut [u8], downloaded: u32, view: &[u8]) -> u32
    ensures { record { number = result; map = map.new } ≡ map_slide map.old downloaded view.now }
{
    number_of(window_map::sliding::slide(map, downloaded, view))
}

// How many heights can be passed, or 12. Reads only.
pub fn request_keeper_map_passable(map: &[u8]) -> Passable
    ensures { record { number = result.number; heights = result.heights } ≡ map_passable map.now }
{
    match window_map::map_passable(map) {
        Ok(heights) => Passable { number: 0, heights },
        Err(refusal) => Passable {
            number: refusal.number(),
            heights: 0,
        },
    }
}
