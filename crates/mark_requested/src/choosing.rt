// What a merge of the pending requests with sorted ids takes next.
//
// The first words decide between most.
//
// Places twice in a row are told as in question's rising, by another comparison: a test more than a constant.
ghost use Rattle.std.specs.Prelude.{◌≡◌, map, ◌+◌, ◌*◌, ◌≤◌, ◌<◌, length, take, drop, slice_index, EachIndex};
ghost use Rattle.fields.specs.Entries.{entries, entry};
ghost use Rattle.model.specs.Image.{request_of};
ghost use Rattle.mark_requested.specs.Choices.{Listed, ids_at, repeats, chosen, choice_for, choice_at};
ghost use Rattle.model.specs.Layout.{id_size, record_size};
ghost use Rattle.model.specs.Protocol.{tracked_limit};

use model::layout::{ID_SIZE, RECORD_SIZE};
use std::cmp::Ordering;

// What comes next: the table's record, nothing since the id comes again or is pending, or the id's record.
#[derive(Clone, Copy)]
pub enum Choice {
    Keep,
    Skip,
    Enter,
}

// Whether the next id is the same as this one.
fn comes_again(ids: &[u8], places: &[u16], j: usize) -> bool
    requires listed { EachIndex places.now (λ k. Listed ids.now (slice_index places.now k)) }
    requires inside { j < length places.now }
    ensures { result ≡ repeats (ids_at ids.now (drop j places.now)) }
{
    if places.len() <= j + 1 {
        return false;
    }
    let p = usize::from(places[j]) * ID_SIZE;
    let q = usize::from(places[j + 1]) * ID_SIZE;
    let words = keys::key_unlike(ids, p, ids, q, ID_SIZE);
    words.left == words.right
}

// The record whose id stands at p, or the id at q.
fn compare(table: &[u8], p: usize, ids: &[u8], q: usize) -> Choice
    requires { (p + id_size ≤ length table.now) × (q + id_size ≤ length ids.now) }
    ensures { result ≡ chosen (take id_size (drop p table.now)) (take id_size (drop q ids.now)) }
{
    let words = keys::key_unlike(table, p, ids, q, ID_SIZE);
    match words.left.cmp(&words.right) {
        Ordering::Less => Choice::Keep,
        Ordering::Equal => Choice::Skip,
        Ordering::Greater => Choice::Enter,
    }
}

// The record at i, if there is one, or the id at a place.
fn choose(table: &[u8], count: usize, i: usize, ids: &[u8], place: usize) -> Choice
    requires records { (count * record_size ≤ length table.now) × ((i ≤ count) × (count ≤ tracked_limit)) }
    requires listed { Listed ids.now place }
    ensures { result ≡ choice_for (entry id_size place ids.now) (map request_of (drop i (entries record_size count table.now))) }
{
    if count <= i {
        return Choice::Enter;
    }
    compare(table, i * RECORD_SIZE, ids, place * ID_SIZE)
}

// The record at i, or the id at place j of those left, in the order of the ids. A table with its count and ids with their places,
// not a `Pending` and a `Placed`: neither order nor number of them is asked for.
pub fn next_choice(
    table: &[u8],
    count: usize,
    i: usize,
    ids: &[u8],
    places: &[u16],
    j: usize,
) -> Choice
    requires records { (count * record_size ≤ length table.now) × ((i ≤ count) × (count ≤ tracked_limit)) }
    requires listed { EachIndex places.now (λ k. Listed ids.now (slice_index places.now k)) }
    requires inside { j < length places.now }
    ensures { result ≡ choice_at (ids_at ids.now (drop j places.now)) (map request_of (drop i (entries record_size count table.now))) }
{
    if comes_again(ids, places, j) {
        return Choice::Skip;
    }
    choose(table, count, i, ids, usize::from(places[j]))
}
