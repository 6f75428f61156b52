// request_announced: one list of ids through rule 3.
//
// What rule 3 names, one by one: `Asks` has it for many lists of one peer.
ghost use Rattle.std.specs.Prelude.{◌≡◌, true, ◌+◌, ◌*◌, ◌/◌, ◌≤◌, ◌<◌, length};
ghost use Rattle.fields.specs.Entries.{entries, rising};
ghost use Rattle.model.specs.Requests.{ask, perform};
ghost use Rattle.model.specs.Lists.{ids_in, pairs_in};
ghost use Rattle.commands.specs.Pending.{requests_in};
ghost use Rattle.mark_requested.specs.Marking.{held_within};
ghost use Rattle.request_announced.specs.Requested.{requested_as, sent_within};
ghost use Rattle.model.specs.Layout.{command_size, id_list_size, id_size, record_size};
ghost use Rattle.model.specs.Protocol.{tracked_limit};

use commands::place::Place;
use commands::tracker::TrackerError;
use lists::pairs::Pairs;
use model::layout::ID_SIZE;

// How many are pending, and where the next command goes.
#[derive(Clone, Copy)]
pub struct Written {
    pub count: usize,
    pub place: Place,
}

// Rule 3: with the gate shut nothing; else ids that are pending are dropped, then stored ones, and the rest is marked, then
// sent. A list of which nothing is left takes no batch number. With room to work in: `rest`. That the records rise is a clause
// and no ghost field: the table is written.
pub fn request_announced(
    table: &mut [u8],
    count: usize,
    most: usize,
    gate: bool,
    clock: u64,
    typeid: u16,
    peer: u64,
    stored: Pairs,
    ids: &[u8],
    rest: &mut [u8],
    out: &mut [u8],
    place: Place,
) -> Result<Written, TrackerError>
    requires ids_len_bound { (length ids.now ≤ id_list_size) × ((count ≤ most) × ((most ≤ tracked_limit) × (most * record_size ≤ length table.old))) }
    requires table_value { rising id_size (entries record_size count table.old) ≡ true }
    requires ids_in_bounds { (length ids.now ≤ length rest.old) × ((place.at + length ids.now / id_size * command_size ≤ length out.old) × (place.batch + 1 < 65536)) }
    ensures value { result ≡ requested_as most place (perform gate clock (ask typeid peer (pairs_in stored.entry.bytes.now) (ids_in ids.now)) (requests_in count table.old)) }
    ensures table_after { table.new ≡ held_within most count (perform gate clock (ask typeid peer (pairs_in stored.entry.bytes.now) (ids_in ids.now)) (requests_in count table.old)).pending table.old }
    ensures out_after { out.new ≡ sent_within most place (perform gate clock (ask typeid peer (pairs_in stored.entry.bytes.now) (ids_in ids.now)) (requests_in count table.old)) out.old }
{
    if !gate {
        return Ok(Written { count, place });
    }
    let number = crate::wanted::wanted(table, count, stored, typeid, ids, rest);
    let none = number == 0;
    if none {
        return Ok(Written { count, place });
    }
    let left = &rest[..number * ID_SIZE];
    let held = mark_requested::mark_requested(table, count, most, clock, typeid, peer, left)?;
    let end = commands::writing::put_requests(out, place, typeid, peer, left, number);
    let next = Place {
        at: end,
        batch: place.batch + 1,
    };
    Ok(Written {
        count: held,
        place: next,
    })
}
