// The stalled peers' places after a step: as they were, emptied, or with a peer more.
//
// The set is read, joined and written by value, and only in a step that changes it.
//
// The places are written, so the count stands beside them.
ghost use Rattle.std.specs.Prelude.{◌≡◌, List, [], ◌∷◌, ◌++◌, ℕ, ◌≤◌, ◌<◌, length};
ghost use Rattle.step.specs.Stalling.{places_of, stalled_then, stalled_count_then};

use peers::stalled_set::{Stalled, StalledPlaces};
use plan::Stalling;

// A peer that joins stands behind those that were there.
fn join(places: &mut [u8], count: usize, peer: u64)
    requires { (length places.old ≡ 2048) × (count < 256) }
    ensures { (peers : List ℕ) → length peers ≡ count → places.old ≡ places_of peers → places.new ≡ places_of (peers ++ (peer ∷ [])) }
{
    let set = StalledPlaces {
        bytes: places,
        count,
    };
    let joined = set.read().joined(peer);
    peers::stalled::write_stalled(joined, places);
}

// The places of the stalled set as a plan changes them.
pub fn stall(places: &mut [u8], count: usize, stalling: Stalling)
    requires { (length places.old ≡ 2048) × (stalled_count_then stalling count ≤ 256) }
    ensures { (peers : List ℕ) → length peers ≡ count → places.old ≡ places_of peers → places.new ≡ places_of (stalled_then stalling peers) }
{
    match stalling {
        Stalling::Stay => {}
        Stalling::Empty => peers::stalled::write_stalled(Stalled::empty(), places),
        Stalling::Join(peer) => join(places, count, peer),
    }
}
