// The retries of a delivery check, sent in batches by target, then type.
//
// The commands are those of `retry_sendings` in model/specs/Check.antt. The table is read only; the places are sorted, and
// commands are written from a place on. One sort of the retried places, one pass over their ids. Where nothing is sent, no
// room is made.
//
// Places are sorted where they stand, so what they stand for is a clause and no ghost field.
#![tactic(auto)]

pub mod batches;

ghost use Rattle.std.specs.Prelude.{◌≡◌, ◌+◌, ◌*◌, ◌≤◌, ◌<◌, length};
ghost use Rattle.fields.specs.Facts.{All};
ghost use Rattle.fields.specs.Entries.{joined};
ghost use Rattle.model.specs.Check.{retry_sendings};
ghost use Rattle.commands.specs.Pending.{Stands};
ghost use Rattle.commands.specs.Sent.{sent_bytes, sent_at, behind};
ghost use Rattle.retries.specs.Items.{items_at};
ghost use Rattle.retries.specs.Retried.{ids_at, sendings_of, sent_of};
ghost use Rattle.model.specs.Layout.{command_size, most_batches};
ghost use Rattle.model.specs.Protocol.{tracked_limit};

use crate::batches::Batch;
use commands::place::Place;
use model::layout::{ID_LIST_SIZE, ID_SIZE, PEER_AT, RECORD_SIZE, TRACKED_LIMIT};
use order::SortKey;

// A list to fill.
fn no_batches() -> [Batch; 1024] {
    let none = Batch {
        target: 0,
        typeid: 0,
        first: 0,
        count: 0,
    };
    [none; 1024]
}

// Requests for the records at `places`, neighbours of one target and type as one batch; `ids` are theirs.
fn put_batches(table: &[u8], places: &[u16], ids: &[u8], out: &mut [u8], place: Place) -> Place
    requires all { All (Stands table.now) places.now × ((ids.now ≡ joined (ids_at table.now places.now)) × (length places.now ≤ tracked_limit)) }
    requires places_in_bounds { (place.at + length (sent_bytes place.batch (sendings_of (items_at table.now places.now))) ≤ length out.old) × (place.batch + length places.now < 65536) }
    ensures out_after { out.new ≡ sent_at place (sendings_of (items_at table.now places.now)) out.old }
    ensures value { result ≡ behind place (sendings_of (items_at table.now places.now)) }
{
    let grouped = crate::batches::grouped(no_batches(), table, places);
    // Taken out of the struct, and by index: a part of it would be lent from a copy of 32 KiB.
    let list = grouped.list;
    let mut next = place;
    for i in 0..grouped.count {
        let one = list[i];
        let from = one.first * ID_SIZE;
        let end = from + one.count * ID_SIZE;
        let at = commands::writing::put_requests(
            out,
            next,
            one.typeid,
            one.target,
            &ids[from..end],
            one.count,
        );
        next = Place {
            at,
            batch: next.batch + 1,
        };
    }
    next
}

// Requests for the records at `places`, each from the peer that it names, as batches by target, then type.
fn put_retries(table: &[u8], places: &mut [u16], out: &mut [u8], place: Place) -> Place
    requires all { All (Stands table.now) places.old }
    requires places_len_bound { (length places.old ≤ tracked_limit) × ((place.at + length places.old * command_size ≤ length out.old) × (place.batch + most_batches < 65536)) }
    ensures out_after { out.new ≡ sent_at place (retry_sendings (items_at table.now places.old)) out.old }
    ensures value { result ≡ behind place (retry_sendings (items_at table.now places.old)) }
{
    let mut spare = [0u16; TRACKED_LIMIT];
    let mut ids = [0u8; ID_LIST_SIZE];
    let number = places.len();
    let target = SortKey {
        table,
        width: RECORD_SIZE,
        at: PEER_AT,
        size: 10,
    };
    order::sort(target, places, &mut spare[..number]);
    order::gathering::gather(table, RECORD_SIZE, 0, places, &mut ids);
    put_batches(table, places, &ids[..number * ID_SIZE], out, place)
}

// The places' records; behind a shut gate, or with no place, nothing is sent.
pub fn send_retries(
    table: &[u8],
    places: &mut [u16],
    gate: bool,
    out: &mut [u8],
    place: Place,
) -> Place
    requires all { All (Stands table.now) places.old }
    requires room { (length places.old ≤ tracked_limit) × ((place.at + length places.old * command_size ≤ length out.old) × (place.batch + most_batches < 65536)) }
    ensures out_after { out.new ≡ sent_at place (sent_of gate table.now places.old) out.old }
    ensures value { result ≡ behind place (sent_of gate table.now places.old) }
{
    if !gate {
        return place;
    }
    if places.is_empty() {
        return place;
    }
    put_retries(table, places, out, place)
}
