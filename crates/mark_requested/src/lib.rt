// mark_requested: new ids enter the table of pending requests.
//
// Equal to `mark_requested` of model/specs/Delivery.antt, one id after another. Only the table is written; where it would
// hold too many, it stays. A few ids cost a search and a move of the records behind them each. Many are sorted and merged
// with the table in one pass.
//
// The table is written, so count and facts stand beside it: a ghost field would have to hold at each write.
#![tactic(auto)]

pub mod choosing;
pub mod entering;
pub mod merging;

ghost use Rattle.std.specs.Prelude.{◌≡◌, true, ◌+◌, ◌*◌, ◌/◌, ◌%◌, ◌≤◌, length, slice_index, EachIndex};
ghost use Rattle.fields.specs.Order.{before};
ghost use Rattle.fields.specs.Sort.{sorted};
ghost use Rattle.fields.specs.Entries.{entries, rising};
ghost use Rattle.model.specs.Delivery.{mark_requested};
ghost use Rattle.model.specs.Lists.{ids_in};
ghost use Rattle.commands.specs.Pending.{requests_in};
ghost use Rattle.mark_requested.specs.Marking.{marked_as, held_within};
ghost use Rattle.mark_requested.specs.Choices.{Listed, ids_at};
ghost use Rattle.model.specs.Layout.{id_list_size, id_size, record_size};
ghost use Rattle.model.specs.Protocol.{tracked_limit};

use commands::pending::Pending;
use commands::tracker::TrackerError;
use entering::Asking;
use model::layout::{ID_SIZE, RECORD_SIZE, TRACKED_LIMIT};
use order::SortKey;

// Ids, and places of some of them.
#[derive(Clone, Copy)]
pub struct Placed<'a> {
    pub ids: &'a [u8],
    pub places: &'a [u16],
    ghost listed: { EachIndex places.now (λ j. Listed ids.now (slice_index places.now j)) },
    ghost few: { length places.now ≤ tracked_limit },
}

// The places of all ids, in the order of the ids.
fn sort_ids(ids: &[u8], places: &mut [u16], spare: &mut [u16])
    requires { (length places.old ≡ length ids.now / id_size) × ((length spare.old ≡ length places.old) × (length ids.now ≤ id_list_size)) }
    ensures places_after { ids_at ids.now places.new ≡ sorted before (ids_in ids.now) }
    ensures listed { EachIndex places.new (λ j. Listed ids.now (slice_index places.new j)) }
{
    order::places::number(places);
    let whole = SortKey {
        table: ids,
        width: ID_SIZE,
        at: 0,
        size: ID_SIZE,
    };
    order::sort(whole, places, spare);
}

// The same as `mark_requested` for many ids at once, with room to work in: `places`, `spare` and `room`.
fn mark_many(
    table: &mut [u8],
    count: usize,
    most: usize,
    asking: Asking,
    ids: &[u8],
    places: &mut [u16],
    spare: &mut [u16],
    room: &mut [u8],
) -> Result<usize, TrackerError>
    requires id_size_len { (length ids.now % id_size ≡ 0) × ((length ids.now ≤ id_list_size) × ((count ≤ most) × ((most ≤ tracked_limit) × (most * record_size ≤ length table.old)))) }
    requires places_len { (length places.old ≡ length ids.now / id_size) × ((length spare.old ≡ length places.old) × (most * record_size + record_size ≤ length room.old)) }
    requires table_value { rising id_size (entries record_size count table.old) ≡ true }
    ensures value { result ≡ marked_as most (mark_requested asking.clock asking.typeid asking.peer (ids_in ids.now) (requests_in count table.old)) }
    ensures table_after { table.new ≡ held_within most count (mark_requested asking.clock asking.typeid asking.peer (ids_in ids.now) (requests_in count table.old)) table.old }
{
    sort_ids(ids, places, spare);
    let pending = Pending { table, count };
    let held = crate::merging::merge(pending, most, asking, Placed { ids, places }, room)?;
    spans::copying::copy_prefix(room, held * RECORD_SIZE, table);
    Ok(held)
}

// The same with rooms made here, of which a part is used for this number of ids: there is no heap. They are a function's of their
// own, since few ids would pay for clearing them in `mark_requested`.
fn mark_in_rooms(
    table: &mut [u8],
    count: usize,
    most: usize,
    asking: Asking,
    ids: &[u8],
    number: usize,
) -> Result<usize, TrackerError>
    requires number_value { number ≡ length ids.now / id_size }
    requires id_size_len { (length ids.now % id_size ≡ 0) × ((length ids.now ≤ id_list_size) × ((count ≤ most) × ((most ≤ tracked_limit) × (most * record_size ≤ length table.old)))) }
    requires table_value { rising id_size (entries record_size count table.old) ≡ true }
    ensures value { result ≡ marked_as most (mark_requested asking.clock asking.typeid asking.peer (ids_in ids.now) (requests_in count table.old)) }
    ensures table_after { table.new ≡ held_within most count (mark_requested asking.clock asking.typeid asking.peer (ids_in ids.now) (requests_in count table.old)) table.old }
{
    let mut places = [0u16; TRACKED_LIMIT];
    let mut spare = [0u16; TRACKED_LIMIT];
    let mut room = [0u8; 55350];
    mark_many(
        table,
        count,
        most,
        asking,
        ids,
        &mut places[..number],
        &mut spare[..number],
        &mut room,
    )
}

// Each id enters once, with type and peer, stamp `clock` and checks 0, unless it is pending. With more than `most`
// requests pending then, the answer is Full and the table stays.
pub fn mark_requested(
    table: &mut [u8],
    count: usize,
    most: usize,
    clock: u64,
    typeid: u16,
    peer: u64,
    ids: &[u8],
) -> Result<usize, TrackerError>
    requires id_size_len { (length ids.now % id_size ≡ 0) × ((length ids.now ≤ id_list_size) × ((count ≤ most) × ((most ≤ tracked_limit) × (most * record_size ≤ length table.old)))) }
    requires table_value { rising id_size (entries record_size count table.old) ≡ true }
    ensures value { result ≡ marked_as most (mark_requested clock typeid peer (ids_in ids.now) (requests_in count table.old)) }
    ensures table_after { table.new ≡ held_within most count (mark_requested clock typeid peer (ids_in ids.now) (requests_in count table.old)) table.old }
{
    let asking = Asking {
        clock,
        typeid,
        peer,
    };
    let number = ids.len() / ID_SIZE;
    // A table that fills up must stay as it was, so ids go in one after another only where all of them have room.
    if (number <= 8) & (count + number <= most) {
        return Ok(crate::entering::mark_each(table, count, asking, ids));
    }
    mark_in_rooms(table, count, most, asking, ids, number)
}
