// Number 2 of the refusals: "a peer stalled twice".
//
// Peers are taken from the last to the first, and each sets a flag that its low 12 bits choose. A peer whose flag is not
// set yet is none of those behind it; one whose flag is set is compared with all of them. While few share their low bits,
// this costs a pass over the peers and 4,096 zeros: of 256 numbers at random, 8 are compared. Where all share them, it
// costs a comparison of each pair.
//
// The area's size and its count of stalled peers are asked for at this one door: what comes behind is a `StalledPlaces`.
ghost use Rattle.std.specs.Prelude.{◌≡◌, ◌≤◌, length};
ghost use Rattle.model.specs.Peers as model;
ghost use Rattle.model.specs.Image as image;
ghost use Rattle.model.specs.Image.{none_twice};
ghost use Rattle.image_test.specs.Flags.{Flagged};
ghost use Rattle.model.specs.Layout.{area_size};

use model::layout::{REGION_AT, STALLED_AT};
use peers::stalled_set::StalledPlaces;

// Whether a peer is among these. No early exit: many are compared at a time, and the library's `contains` would compare one.
#[tactic(auto, using(crate::proofs::OnceLaws::listed_more))]
fn is_listed(peers: &[u64], peer: u64) -> bool
    ensures { result ≡ model.is_listed peer peers.now }
{
    let mut found = false;
    for other in peers {
        found |= peer == *other;
    }
    found
}

// Whether a peer is among those behind it, which have set their flags.
#[tactic(auto, using(crate::proofs::OnceLaws::unflagged))]
fn is_listed_behind(peer: u64, behind: &[u64], flags: &[u8; 4096]) -> bool
    requires { Flagged flags.now behind.now }
    ensures { result ≡ model.is_listed peer behind.now }
{
    flags[(peer % 4096) as usize] != 0 && is_listed(behind, peer)
}

// Whether no peer is there twice.
fn is_none_twice(peers: &[u64]) -> bool
    ensures { result ≡ none_twice peers.now }
{
    let mut flags = [0u8; 4096];
    let mut ok = true;
    for i in (0..peers.len()).rev() {
        let peer = peers[i];
        ok = !is_listed_behind(peer, &peers[i + 1..], &flags) & ok;
        flags[(peer % 4096) as usize] = 1;
    }
    ok
}

// Whether each peer of the area's stalled set is there once.
#[tactic(auto, using(crate::proofs::OnceLaws::few_once))]
pub fn stalled_once(area: &[u8]) -> bool
    requires area_len { length area.now ≡ area_size }
    requires area_bound { image.stalled_count area.now ≤ 256 }
    ensures { result ≡ none_twice (image.stalled_of area.now) }
{
    let count = image::head::count_at(area, 68);
    // Mostly none or one has stalled, and no flags are wanted.
    if count < 2 {
        return true;
    }
    let places = StalledPlaces {
        bytes: &area[STALLED_AT..REGION_AT],
        count,
    };
    is_none_twice(&places.read().peers[..count])
}
