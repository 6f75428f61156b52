// Where the retries of a check go, worked out once for all of them.
ghost use Rattle.std.specs.Prelude.{◌≡◌, ℕ, ◌≤◌};
ghost use Rattle.model.specs.Check.{retry_target};
ghost use Rattle.model.specs.Lists.{peers_in};
ghost use Rattle.peers.specs.Stalled.{stalled_peers};
ghost use Rattle.peers.specs.Aims.{aimed_at};

use crate::stalled_set::Stalled;

// To their own peer, or to the selected peer and, for what failed there, to another. No `Option`: with `Same` no target is
// missing, each retry has one.
#[derive(Clone, Copy)]
pub enum Aim {
    Same,
    Other(u64, u64),
}

// Two targets serve whatever failed: what did not fail at the selected peer goes to it, and only for what did are there three
// cases, another that has not stalled, one that has, or the same peer again. Where every listed peer has stalled the set is
// searched once for each of them, and not again.
#[tactic(auto, using(crate::proofs::AimLaws::aim_nobody, crate::proofs::AimLaws::aim_free, crate::proofs::AimLaws::aim_stalled))]
pub fn retry_aim(stalled: Stalled, peers: &[u8]) -> Aim
    ensures { (failed : ℕ) → aimed_at result failed ≡ retry_target (stalled_peers stalled) (peers_in peers.now) failed }
{
    match crate::first_unstalled(stalled.held(), peers) {
        Some(first) => Aim::Other(first, crate::retry_target(stalled, peers, first)),
        None => match crate::first_listed(peers) {
            Some(first) => Aim::Other(first, crate::other_target(peers, first)),
            None => Aim::Same,
        },
    }
}
