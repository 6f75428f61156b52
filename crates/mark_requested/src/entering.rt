// A new request: its record, and the places of a few ids in the table of pending requests.
//
// An id costs a search and a move of the records behind it.
//
// The table is written, so count and facts stand beside it.
ghost use Rattle.std.specs.Prelude.{◌≡◌, true, ◌+◌, ◌*◌, ◌/◌, ◌≤◌, [], ◌∷◌, length};
ghost use Rattle.fields.specs.Overwrite.{overwritten};
ghost use Rattle.model.specs.Image.{request_bytes};
ghost use Rattle.fields.specs.Entries.{entries, rising};
ghost use Rattle.model.specs.Delivery.{mark_requested};
ghost use Rattle.model.specs.Lists.{ids_in};
ghost use Rattle.commands.specs.Pending.{requests_in, holding};
ghost use Rattle.mark_requested.specs.Marking.{new_request};
ghost use Rattle.model.specs.Layout.{id_size, record_size};

use keys::Entries;
use model::layout::{CHECKS_AT, ID_SIZE, PEER_AT, RECORD_SIZE, STAMP_AT, TYPE_AT};

// What the new requests of one call have in common.
#[derive(Clone, Copy)]
pub struct Asking {
    pub clock: u64,
    pub typeid: u16,
    pub peer: u64,
}

// The record of a new request at `at`.
fn put_record(out: &mut [u8], at: usize, asking: Asking, id: &[u8; ID_SIZE])
    requires { at + record_size ≤ length out.old }
    ensures { out.new ≡ overwritten at (request_bytes (new_request asking.clock asking.typeid asking.peer id.now)) out.old }
{
    spans::moving::overwrite(out, at, id);
    fields::write_u64(out, at + PEER_AT, asking.peer);
    fields::write_u16(out, at + TYPE_AT, asking.typeid);
    fields::write_u64(out, at + STAMP_AT, asking.clock);
    fields::write_u32(out, at + CHECKS_AT, 0);
}

// The record of a new request.
pub fn new_record(asking: Asking, id: &[u8; ID_SIZE]) -> [u8; RECORD_SIZE]
    ensures { result ≡ request_bytes (new_request asking.clock asking.typeid asking.peer id.now) }
{
    let mut record = [0u8; RECORD_SIZE];
    put_record(&mut record, 0, asking, id);
    record
}

// One id, by a search and a move of the records behind it. Answers how many requests are pending then.
fn mark_one(table: &mut [u8], count: usize, asking: Asking, id: &[u8; ID_SIZE]) -> usize
    requires room { count * record_size + record_size ≤ length table.old }
    requires table_value { rising id_size (entries record_size count table.old) ≡ true }
    ensures value { result ≡ length (mark_requested asking.clock asking.typeid asking.peer (id.now ∷ []) (requests_in count table.old)) }
    ensures table_after { table.new ≡ holding count (mark_requested asking.clock asking.typeid asking.peer (id.now ∷ []) (requests_in count table.old)) table.old }
{
    let records = Entries {
        bytes: table,
        width: RECORD_SIZE,
        count,
    };
    match keys::find::find(records, id) {
        Ok(_) => count,
        Err(gap) => {
            let record = new_record(asking, id);
            table::edit::insert(table, RECORD_SIZE, count, gap, &record);
            count + 1
        }
    }
}

// Ids one after another into a table that has room for all of them. Answers how many requests are pending then.
pub fn mark_each(table: &mut [u8], count: usize, asking: Asking, ids: &[u8]) -> usize
    requires room { (count + length ids.now / id_size) * record_size ≤ length table.old }
    requires table_value { rising id_size (entries record_size count table.old) ≡ true }
    ensures value { result ≡ length (mark_requested asking.clock asking.typeid asking.peer (ids_in ids.now) (requests_in count table.old)) }
    ensures table_after { table.new ≡ holding count (mark_requested asking.clock asking.typeid asking.peer (ids_in ids.now) (requests_in count table.old)) table.old }
{
    let mut pending = count;
    for id in ids.as_chunks::<ID_SIZE>().0 {
        pending = mark_one(table, pending, asking, id);
    }
    pending
}
