// The peers that a call lists, 8 bytes each, and the stalled set.
//
// First listed peer, retry target (rule 6) and selected peer (rule 1) equal their definitions in model/specs/Peers.antt and
// Check.antt. The set goes by value; only `write_stalled` writes, the 2,048 bytes of its places. Selecting costs a pass
// over the set for each listed peer up to the one chosen.
#![tactic(auto)]

pub mod aim;
pub mod stalled;
pub mod stalled_set;

ghost use Rattle.std.specs.Prelude.{◌≡◌, ℕ, Bool, not};
ghost use Rattle.fields.specs.Filter.{kept};
ghost use Rattle.model.specs.Peers as model;
ghost use Rattle.model.specs.Check.{others, retry_target};
ghost use Rattle.model.specs.Lists.{peers_in};
ghost use Rattle.peers.specs.Stalled.{stalled_peers};
ghost use Rattle.peers.specs.Peers.{listed_peer, Tells};

use crate::stalled_set::Stalled;

// The first listed peer, if one is listed.
#[tactic(auto, using(crate::proofs::PeerLaws::peers_none, crate::proofs::PeerLaws::peers_first))]
pub fn first_listed(peers: &[u8]) -> Option<u64>
    ensures { listed_peer result ≡ model.first_of (peers_in peers.now) }
{
    if peers.len() < 8 {
        return None;
    }
    Some(fields::read_u64(peers, 0))
}

// The first listed peer that passes a test, if there is one.
#[tactic(auto, using(crate::proofs::PeerLaws::passes_here, crate::proofs::PeerLaws::passes_later, crate::proofs::PeerLaws::passes_end))]
fn first_passing<F: Fn(u64) -> bool>(peers: &[u8], passes: F) -> Option<u64>
    requires { F.IsAlwaysCallable passes }
    ensures { (test : ℕ → Bool) → Tells (F.post passes) test → listed_peer result ≡ model.first_of (kept test (peers_in peers.now)) }
{
    for i in 0..peers.len() / 8 {
        let peer = fields::read_u64(peers, i * 8);
        if passes(peer) {
            return Some(peer);
        }
    }
    None
}

// Whether a peer is among these. With `contains` of a slice, which is more code, the searches below are no longer inlined.
pub(crate) fn is_among(peers: &[u64], peer: u64) -> bool
    ensures { result ≡ model.is_listed peer peers.now }
{
    peers.iter().any(|other| *other == peer)
}

// The first listed peer that is none of the stalled ones, if there is one.
#[tactic(auto, unfolding(model::specs::Peers::first_unstalled))]
pub(crate) fn first_unstalled(stalled: &[u64], peers: &[u8]) -> Option<u64>
    ensures { listed_peer result ≡ model.first_unstalled stalled.now (peers_in peers.now) }
{
    first_passing(peers, |peer| !is_among(stalled, peer))
}

// The peer to sync from (rule 1): the first listed that has not stalled; if all have, the first listed.
#[tactic(auto, unfolding(model::specs::Peers::select_peer))]
pub fn select_peer(stalled: Stalled, peers: &[u8]) -> Option<u64>
    ensures { listed_peer result ≡ model.select_peer (stalled_peers stalled) (peers_in peers.now) }
{
    first_unstalled(stalled.held(), peers).or_else(|| first_listed(peers))
}

// Whether selecting empties the stalled set: no listed peer is outside it, also where none is listed.
pub fn all_stalled(stalled: Stalled, peers: &[u8]) -> bool
    ensures { result ≡ not (model.is_some (model.first_unstalled (stalled_peers stalled) (peers_in peers.now))) }
{
    first_unstalled(stalled.held(), peers).is_none()
}

// The first listed peer other than the failed one, if there is one.
fn first_other(peers: &[u8], failed: u64) -> Option<u64>
    ensures { listed_peer result ≡ model.first_of (others failed (peers_in peers.now)) }
{
    first_passing(peers, |peer| peer != failed)
}

// The same, else the failed one: where a retry goes if every other listed peer has stalled.
pub(crate) fn other_target(peers: &[u8], failed: u64) -> u64
    ensures { result ≡ model.peer_or failed (model.first_of (others failed (peers_in peers.now))) }
{
    first_other(peers, failed).unwrap_or(failed)
}

// The first listed peer neither failed nor stalled, if there is one.
fn first_spared(stalled: &[u64], peers: &[u8], failed: u64) -> Option<u64>
    ensures { listed_peer result ≡ model.first_unstalled stalled.now (others failed (peers_in peers.now)) }
{
    first_passing(peers, |peer| peer != failed && !is_among(stalled, peer))
}

// Where a timed-out request goes next (F-8): to the first listed peer neither failed nor stalled, else to the first other than
// the failed one, else to the failed one.
#[tactic(auto, unfolding(model::specs::Check::retry_target))]
pub fn retry_target(stalled: Stalled, peers: &[u8], failed: u64) -> u64
    ensures { result ≡ retry_target (stalled_peers stalled) (peers_in peers.now) failed }
{
    first_spared(stalled.held(), peers, failed).unwrap_or_else(|| other_target(peers, failed))
}
