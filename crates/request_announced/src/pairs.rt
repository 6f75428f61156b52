// Pairs of type and id, by type: their places, the runs of one type, the ids.
//
// n pairs cost n log n comparisons.
//
// Places are sorted where they stand, so that they lie within the pairs is a clause and no ghost field.
ghost use Rattle.std.specs.Prelude.{◌≡◌, suc, ◌+◌, ◌*◌, ◌/◌, ◌≤◌, ◌<◌, length, take, drop, get_or};
ghost use Rattle.fields.specs.Facts.{All};
ghost use Rattle.fields.specs.Entries.{joined};
ghost use Rattle.fields.specs.Overwrite.{overwritten};
ghost use Rattle.request_announced.specs.Pairs.{Within, pairs_at, ids_at, type_at, places_by_type, of_type};
ghost use Rattle.model.specs.Layout.{id_size, pair_list_size, pair_size};
ghost use Rattle.model.specs.Protocol.{tracked_limit};

use model::layout::{PAIR_SIZE, TRACKED_LIMIT, TYPE_SIZE};
use order::SortKey;

// The places of all pairs, types rising; within a type in the order of the pairs.
pub fn places_by_type(pairs: &[u8]) -> [u16; TRACKED_LIMIT]
    requires { length pairs.now ≤ pair_list_size }
    ensures { take (length pairs.now / pair_size) result ≡ places_by_type pairs.now }
{
    let mut places = [0u16; TRACKED_LIMIT];
    let mut spare = [0u16; TRACKED_LIMIT];
    let number = pairs.len() / PAIR_SIZE;
    order::places::number(&mut places[..number]);
    let types = SortKey {
        table: pairs,
        width: PAIR_SIZE,
        at: 0,
        size: TYPE_SIZE,
    };
    order::sort(types, &mut places[..number], &mut spare[..number]);
    places
}

// The type of the pair at a place.
pub fn type_at(pairs: &[u8], place: u16) -> u16
    requires { Within pairs.now place }
    ensures { result ≡ type_at pairs.now place }
{
    let at = usize::from(place) * PAIR_SIZE;
    fields::read_u16(pairs, at)
}

// Where the run of one type that starts at `first` ends.
#[tactic(auto, unfolding(crate::specs::Pairs::type_at))]
pub fn type_end(pairs: &[u8], places: &[u16], first: usize) -> usize
    requires { All (Within pairs.now) places.now × (first < length places.now) }
    ensures { result ≡ first + suc (of_type (type_at pairs.now (get_or places.now first 0)) (pairs_at pairs.now (drop (first + 1) places.now))) }
{
    let typeid = type_at(pairs, places[first]);
    for end in first + 1..places.len() {
        if type_at(pairs, places[end]) != typeid {
            return end;
        }
    }
    places.len()
}

// The ids of the pairs at `places`, one after another at the front of `ids`. Lent: an array by value would stand on the
// stack twice.
pub fn put_ids(pairs: &[u8], places: &[u16], ids: &mut [u8])
    requires within { All (Within pairs.now) places.now }
    requires room { length places.now * id_size ≤ length ids.old }
    ensures { ids.new ≡ overwritten 0 (joined (ids_at pairs.now places.now)) ids.old }
{
    order::gathering::gather(pairs, PAIR_SIZE, TYPE_SIZE, places, ids);
}
