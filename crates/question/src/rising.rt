// Pairs of type and id in order, each once.
//
// n pairs cost n log n comparisons.
//
// Places are sorted where they stand, so that they lie within the pairs is a clause and no ghost field.
ghost use Rattle.std.specs.Prelude.{◌≡◌, ◌+◌, ◌*◌, ◌%◌, ◌≤◌, ◌<◌, length};
ghost use Rattle.fields.specs.Facts.{All};
ghost use Rattle.fields.specs.Entries.{joined};
ghost use Rattle.fields.specs.Overwrite.{overwritten};
ghost use Rattle.model.specs.Lists.{entries_of};
ghost use Rattle.model.specs.Calls.{strictly_rising};
ghost use Rattle.request_announced.specs.Pairs.{Within, pairs_at};
ghost use Rattle.question.specs.Distinct.{distinct, repeats, pair_once};
ghost use Rattle.model.specs.Layout.{pair_list_size, pair_size};

use model::layout::{PAIR_SIZE, TRACKED_LIMIT};
use order::SortKey;

// Whether the pair at the next place is the same as that at place i.
fn is_repeated(pairs: &[u8], places: &[u16], i: usize) -> bool
    requires { All (Within pairs.now) places.now × (i < length places.now) }
    ensures { result ≡ repeats (pairs_at pairs.now places.now) i }
{
    if places.len() <= i + 1 {
        return false;
    }
    let p = usize::from(places[i]) * PAIR_SIZE;
    let q = usize::from(places[i + 1]) * PAIR_SIZE;
    keys::run_same(pairs, p, pairs, q, PAIR_SIZE)
}

// The pair at place i, unless the next is the same. Answers where the next goes.
fn put_once(pairs: &[u8], places: &[u16], i: usize, out: &mut [u8], at: usize) -> usize
    requires all { All (Within pairs.now) places.now × (i < length places.now) }
    requires pair_size_in_bounds { at + pair_size ≤ length out.old }
    ensures out_after { out.new ≡ overwritten at (pair_once (pairs_at pairs.now places.now) i) out.old }
    ensures value { result ≡ at + length (pair_once (pairs_at pairs.now places.now) i) }
{
    if is_repeated(pairs, places, i) {
        return at;
    }
    let from = usize::from(places[i]) * PAIR_SIZE;
    let end = from + PAIR_SIZE;
    spans::moving::overwrite(out, at, &pairs[from..end]);
    at + PAIR_SIZE
}

// The pairs at the places, neighbours that are the same once.
fn put_distinct(pairs: &[u8], places: &[u16], out: &mut [u8]) -> usize
    requires { All (Within pairs.now) places.now × (length places.now * pair_size ≤ length out.old) }
    ensures out_after { out.new ≡ overwritten 0 (joined (distinct (pairs_at pairs.now places.now))) out.old }
    ensures value { result ≡ length (joined (distinct (pairs_at pairs.now places.now))) }
{
    let mut at = 0;
    for i in 0..places.len() {
        at = put_once(pairs, places, i, out, at);
    }
    at
}

// Each pair once, in order, at the front of `out`. Answers how many bytes.
pub fn put_rising(pairs: &[u8], out: &mut [u8]) -> usize
    requires { (length pairs.now % pair_size ≡ 0) × ((length pairs.now ≤ pair_list_size) × (length pairs.now ≤ length out.old)) }
    ensures out_after { out.new ≡ overwritten 0 (joined (strictly_rising (entries_of pair_size pairs.now))) out.old }
    ensures value { result ≡ length (joined (strictly_rising (entries_of pair_size pairs.now))) }
{
    let count = pairs.len() / PAIR_SIZE;
    let mut room = [0u16; TRACKED_LIMIT];
    let mut spare = [0u16; TRACKED_LIMIT];
    let places = &mut room[..count];
    order::places::number(places);
    let whole = SortKey {
        table: pairs,
        width: PAIR_SIZE,
        at: 0,
        size: PAIR_SIZE,
    };
    order::sort(whole, places, &mut spare[..count]);
    put_distinct(pairs, places, out)
}
