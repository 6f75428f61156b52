// F-1's map of the window, on the 512 bytes of its area: whether it is well formed, how many heights can be passed, a
// section's mark set or cleared, a whole fill and a slide.
//
// Equal to `map_fits`, `map_passable`, `map_change`, `map_fill` and `map_slide` of model/specs/WindowMap.antt, for any bytes.
// The test of an area is one pass over its 192 heights, three marks and three scans for zeros; what can be passed is then
// told from three words. A change writes one byte and one word. A fill and a slide write the heights' bytes, and then all
// that stands around them.
#![tactic(auto)]

pub mod cells;
pub mod changing;
pub mod filling;
pub mod formed;
pub mod marks;
pub mod passing;
pub mod sliding;
pub mod writing;

ghost use Rattle.std.specs.Prelude.{◌≡◌};
ghost use Rattle.model.specs.WindowMap.{map_fits, map_passable};
ghost use Rattle.window_map.specs.Answer.{passable_of};

use model::layout::MAP_SIZE;
use refusals::refusal::Refusal;

// Whether an area is 512 bytes long and well formed.
pub fn fits(map: &[u8]) -> bool
    ensures { result ≡ map_fits map.now }
{
    if map.len() != MAP_SIZE {
        return false;
    }
    formed::is_formed(map)
}

// How many heights can be passed, or 12 for an area that does not fit.
pub fn map_passable(map: &[u8]) -> Result<u32, Refusal>
    ensures { passable_of result ≡ map_passable map.now }
{
    if !fits(map) {
        return Err(Refusal::Map);
    }
    Ok(passing::passable(map))
}
