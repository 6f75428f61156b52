// The stalled set: up to 256 peers by value, with a count, and as the state area holds it.
//
// `write_stalled` writes the places, so their size is a clause there.
ghost use Rattle.std.specs.Prelude.{◌≡◌, [], ◌∷◌, ◌++◌, map, ◌+◌, ◌-◌, ◌*◌, ◌<◌, length};
ghost use Rattle.fields.specs.Number.{from_be, to_be};
ghost use Rattle.fields.specs.Zero.{zeros};
ghost use Rattle.fields.specs.Entries as bytes;
ghost use Rattle.model.specs.Peers as model;
ghost use Rattle.peers.specs.Stalled.{stalled_peers};

use crate::stalled_set::{Stalled, StalledPlaces};

impl Stalled {
    // All places empty.
    #[tactic(auto, unfolding(crate::specs::Stalled::stalled_peers))]
    pub fn empty() -> Stalled
        ensures result_value { stalled_peers result ≡ [] }
        ensures count_value { result.count ≡ 0 }
    {
        Stalled {
            peers: [0; 256],
            count: 0,
        }
    }

    // The peers that it holds.
    pub(crate) fn held(&self) -> &[u64]
        ensures { result.now ≡ stalled_peers self.now }
    {
        &self.peers[..self.count]
    }

    // Whether a peer is in the set.
    pub fn contains(self, peer: u64) -> bool
        ensures { result ≡ model.is_listed peer (stalled_peers self) }
    {
        crate::is_among(self.held(), peer)
    }

    // The set with a peer behind those that it holds.
    pub fn joined(self, peer: u64) -> Stalled
        requires { self.count < 256 }
        ensures result_value { stalled_peers result ≡ stalled_peers self ++ (peer ∷ []) }
        ensures count_value { result.count ≡ self.count + 1 }
    {
        let mut peers = self.peers;
        peers[self.count] = peer;
        Stalled {
            peers,
            count: self.count + 1,
        }
    }
}

impl StalledPlaces<'_> {
    // The set that they hold.
    #[tactic(auto, using(crate::proofs::StalledLaws::elements_take), unfolding(crate::specs::Stalled::stalled_peers))]
    pub fn read(self) -> Stalled
        ensures result_value { stalled_peers result ≡ map from_be (bytes.entries 8 self.entry.count self.entry.bytes.now) }
        ensures count_value { result.count ≡ self.entry.count }
    {
        let mut stalled = Stalled {
            peers: [0; 256],
            count: self.count,
        };
        for i in 0..self.count {
            stalled.peers[i] = fields::read_u64(self.bytes, i * 8);
        }
        stalled
    }
}

// Writes the set to its places. Unused places are zero.
#[tactic(auto, using(crate::proofs::StalledLaws::written_next, crate::proofs::StalledLaws::elements_take), unfolding(crate::specs::Stalled::stalled_peers))]
pub fn write_stalled(stalled: Stalled, places: &mut [u8])
    requires { length places.old ≡ 2048 }
    ensures { places.new ≡ bytes.joined (map (to_be 8) (stalled_peers stalled)) ++ zeros (2048 - 8 * stalled.count) }
{
    spans::copying::fill_zero(places);
    for i in 0..stalled.count {
        fields::write_u64(places, i * 8, stalled.peers[i]);
    }
}
