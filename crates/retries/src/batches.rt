// The retry batches: a list "filled in target and type order", "each a target, a type, a first place and a count".
//
// The grouping rule (`next_batch`) answers one batch by value. `fill` is lent the list and stores batch after batch;
// `grouped` owns the list, for callers that hold it by value. The places come sorted by target, then type.
//
// No heap: a list of fixed size, and a count.
ghost use Rattle.std.specs.Prelude.{◌≡◌, suc, ◌+◌, ◌*◌, ◌≤◌, ◌<◌, length, drop, get_or};
ghost use Rattle.fields.specs.Facts.{All};
ghost use Rattle.commands.specs.Pending.{Stands};
ghost use Rattle.retries.specs.Items.{item_at, items_at, alike, span};
ghost use Rattle.retries.specs.Batches.{batch_at, batches_in, filled_with};
ghost use Rattle.model.specs.Layout.{record_size};
ghost use Rattle.model.specs.Protocol.{tracked_limit};

use model::layout::{PEER_AT, RECORD_SIZE, TYPE_AT};

// "each a target, a type, a first place and a count"
#[derive(Clone, Copy)]
pub struct Batch {
    pub target: u64,
    pub typeid: u16,
    pub first: usize,
    pub count: usize,
}

// The first `count` of the list are batches. The core has no heap: an array and a count.
#[derive(Clone, Copy)]
pub struct Batches {
    pub list: [Batch; 1024],
    pub count: usize,
}

// Whether the records at two places go into one batch. The ten bytes as slices would be a call where they are the same: two
// numbers are two loads.
fn same_batch(table: &[u8], one: u16, other: u16) -> bool
    requires { Stands table.now one × Stands table.now other }
    ensures { result ≡ alike (item_at table.now one) (item_at table.now other) }
{
    let a = usize::from(one) * RECORD_SIZE;
    let b = usize::from(other) * RECORD_SIZE;
    (fields::read_u16(table, a + TYPE_AT) == fields::read_u16(table, b + TYPE_AT))
        & (fields::read_u64(table, a + PEER_AT) == fields::read_u64(table, b + PEER_AT))
}

// Where the batch that starts at `first` ends.
fn batch_end(table: &[u8], places: &[u16], first: usize) -> usize
    requires { All (Stands table.now) places.now × (first < length places.now) }
    ensures { result ≡ first + suc (span (alike (item_at table.now (get_or places.now first 0))) (items_at table.now (drop (first + 1) places.now))) }
{
    for end in first + 1..places.len() {
        if !same_batch(table, places[first], places[end]) {
            return end;
        }
    }
    places.len()
}

// The grouping rule: the batch that starts at `first`.
pub fn next_batch(table: &[u8], places: &[u16], first: usize) -> Batch
    requires { All (Stands table.now) places.now × (first < length places.now) }
    ensures { result ≡ batch_at table.now places.now first }
{
    let end = batch_end(table, places, first);
    let at = usize::from(places[first]) * RECORD_SIZE;
    Batch {
        target: fields::read_u64(table, at + PEER_AT),
        typeid: fields::read_u16(table, at + TYPE_AT),
        first,
        count: end - first,
    }
}

// The writer: the batches of all places from the list's start on, and how many they are.
pub fn fill(batches: &mut [Batch], table: &[u8], places: &[u16]) -> usize
    requires { All (Stands table.now) places.now × (length places.now ≤ length batches.old) }
    ensures { (batches.new ≡ filled_with (batches_in table.now places.now) batches.old)
        × ((result ≡ length (batches_in table.now places.now)) × (result ≤ length places.now)) }
{
    let mut count = 0;
    let mut first = 0;
    // A batch says where the next one starts: no range counts that.
    while first < places.len() {
        let one = next_batch(table, places, first);
        batches[count] = one;
        first += one.count;
        count += 1;
    }
    count
}

// The same for a list by value: it is lent for the call. The project keeps both forms, lent and by value.
pub fn grouped(list: [Batch; 1024], table: &[u8], places: &[u16]) -> Batches
    requires { All (Stands table.now) places.now × (length places.now ≤ tracked_limit) }
    ensures { (result.list ≡ filled_with (batches_in table.now places.now) list)
        × ((result.count ≡ length (batches_in table.now places.now)) × (result.count ≤ length places.now)) }
{
    let mut own = list;
    let count = fill(&mut own, table, places);
    Batches { list: own, count }
}
