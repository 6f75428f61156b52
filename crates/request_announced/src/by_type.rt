// Pairs of type and id through rule 3, one list a type: rule 4, and the ids of a lost peer.
//
// The table is written, so count, bound and facts stand beside it.
ghost use Rattle.std.specs.Prelude.{◌≡◌, true, [], ◌+◌, ◌*◌, ◌/◌, ◌≤◌, ◌<◌, length, leb};
ghost use Rattle.fields.specs.Entries.{entries, rising};
ghost use Rattle.model.specs.Lists.{pairs_in, entries_of};
ghost use Rattle.commands.specs.Pending.{requests_in, holding};
ghost use Rattle.commands.specs.Sent.{sent_at};
ghost use Rattle.request_announced.specs.Requested.{requested_as};
ghost use Rattle.request_announced.specs.ByType.{performed_by_type};
ghost use Rattle.request_announced.specs.Run.{run, Sorted, Ready, Asked};
ghost use Rattle.model.specs.Layout.{command_size, id_size, pair_list_size, pair_size, record_size};
ghost use Rattle.model.specs.Protocol.{tracked_limit};

use crate::asks::Asks;
use crate::request::Written;
use commands::place::Place;
use commands::tracker::TrackerError;
use lists::pairs::Pairs;
use model::layout::{ID_LIST_SIZE, ID_SIZE, PAIR_SIZE};

// One request_announced for each run of one type. Where they are too many, what is left in the table and behind the
// commands is of no use.
fn ask_each(
    asks: Asks,
    table: &mut [u8],
    rest: &mut [u8],
    out: &mut [u8],
    start: Written,
) -> Result<Written, TrackerError>
    requires { Ready (run asks table.old rest.old out.old start) }
    ensures { Asked (run asks.entry table.old rest.old out.old start) result table.new out.new }
{
    let mut done = start;
    let mut i = 0;
    // A run's end says where the next one starts: no range counts that.
    while i < asks.places.len() {
        let typeid = crate::pairs::type_at(asks.pairs, asks.places[i]);
        let next = crate::pairs::type_end(asks.pairs, asks.places, i);
        done = crate::request::request_announced(
            table,
            done.count,
            asks.most,
            asks.gate,
            asks.clock,
            typeid,
            asks.peer,
            asks.stored,
            &asks.ids[i * ID_SIZE..next * ID_SIZE],
            rest,
            out,
            done.place,
        )?;
        i = next;
    }
    Ok(done)
}

// The same for asks that have no ids yet, with room to work in: `ids` and `rest`, for an id of each pair.
fn ask_with_room(
    asks: Asks,
    table: &mut [u8],
    ids: &mut [u8],
    rest: &mut [u8],
    out: &mut [u8],
    start: Written,
) -> Result<Written, TrackerError>
    requires sorted { Sorted (run asks table.old [] out.old start) }
    requires ids_room { length asks.pairs.now / pair_size * id_size ≤ length ids.old }
    requires rest_room { length asks.pairs.now / pair_size * id_size ≤ length rest.old }
    ensures { Asked (run asks.entry table.old rest.old out.old start) result table.new out.new }
{
    crate::pairs::put_ids(asks.pairs, asks.places, ids);
    let size = asks.pairs.len() / PAIR_SIZE * ID_SIZE;
    let gathered = Asks {
        most: asks.most,
        gate: asks.gate,
        clock: asks.clock,
        peer: asks.peer,
        stored: asks.stored,
        pairs: asks.pairs,
        places: asks.places,
        ids: &ids[..size],
    };
    ask_each(gathered, table, rest, out, start)
}

// The same of at most 32 pairs, with room for their ids. This and the next are functions of their own: in one with an earlier
// return both rooms would be cleared before it.
fn ask_few(
    asks: Asks,
    table: &mut [u8],
    out: &mut [u8],
    start: Written,
) -> Result<Written, TrackerError>
    requires sorted { Sorted (run asks table.old [] out.old start) }
    requires few { length asks.pairs.now / pair_size ≤ 32 }
    ensures { Asked (run asks.entry table.old [] out.old start) result table.new out.new }
{
    let mut ids = [0u8; 1024];
    let mut rest = [0u8; 1024];
    ask_with_room(asks, table, &mut ids, &mut rest, out, start)
}

// The same of as many as there may be.
fn ask_many(
    asks: Asks,
    table: &mut [u8],
    out: &mut [u8],
    start: Written,
) -> Result<Written, TrackerError>
    requires sorted { Sorted (run asks table.old [] out.old start) }
    ensures { Asked (run asks.entry table.old [] out.old start) result table.new out.new }
{
    let mut ids = [0u8; ID_LIST_SIZE];
    let mut rest = [0u8; ID_LIST_SIZE];
    ask_with_room(asks, table, &mut ids, &mut rest, out, start)
}

// One list a type through rule 3, types rising, ids in their order. `pairs` are type and id, in any order.
// With Full, what is left in the table and behind the place is of no use.
pub fn request_by_type(
    table: &mut [u8],
    count: usize,
    most: usize,
    gate: bool,
    clock: u64,
    peer: u64,
    stored: Pairs,
    pairs: &[u8],
    out: &mut [u8],
    place: Place,
) -> Result<Written, TrackerError>
    requires pairs_len_bound { (length pairs.now ≤ pair_list_size) × ((count ≤ most) × ((most ≤ tracked_limit) × (most * record_size ≤ length table.old))) }
    requires table_value { rising id_size (entries record_size count table.old) ≡ true }
    requires command_size_in_bounds { (place.at + length pairs.now / pair_size * command_size ≤ length out.old) × (place.batch + length pairs.now / pair_size + 1 < 65536) }
    ensures value { result ≡ requested_as most place (performed_by_type gate clock peer (pairs_in stored.entry.bytes.now) (entries_of pair_size pairs.now) (requests_in count table.old)) }
    ensures table_after { leb (length (performed_by_type gate clock peer (pairs_in stored.entry.bytes.now) (entries_of pair_size pairs.now) (requests_in count table.old)).pending) most ≡ true → table.new ≡ holding count (performed_by_type gate clock peer (pairs_in stored.entry.bytes.now) (entries_of pair_size pairs.now) (requests_in count table.old)).pending table.old }
    ensures out_after { leb (length (performed_by_type gate clock peer (pairs_in stored.entry.bytes.now) (entries_of pair_size pairs.now) (requests_in count table.old)).pending) most ≡ true → out.new ≡ sent_at place (performed_by_type gate clock peer (pairs_in stored.entry.bytes.now) (entries_of pair_size pairs.now) (requests_in count table.old)).sendings out.old }
{
    let number = pairs.len() / PAIR_SIZE;
    let places = crate::pairs::places_by_type(pairs);
    let asks = Asks {
        most,
        gate,
        clock,
        peer,
        stored,
        pairs,
        places: &places[..number],
        ids: b"",
    };
    let start = Written { count, place };
    // Mostly they are few or none, and so is the room to clear for them.
    if number <= 32 {
        return ask_few(asks, table, out, start);
    }
    ask_many(asks, table, out, start)
}
