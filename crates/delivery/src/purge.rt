// purge_peer and purge_all of delivery.rs, on the region of an image. What is removed is zero again.
//
// The table is written, so count and facts stand beside it.
ghost use Rattle.std.specs.Prelude.{◌≡◌, cond, List, map, ℕ, ◌+◌, ◌*◌, ◌≤◌, length};
ghost use Rattle.fields.specs.Entries.{entries, entry};
ghost use Rattle.fields.specs.Overwrite.{overwritten};
ghost use Rattle.fields.specs.Filter.{marked, kept};
ghost use Rattle.model.specs.Delivery.{purge_peer, purge_all};
ghost use Rattle.commands.specs.Pending.{Stands, requests_in, holding};
ghost use Rattle.delivery.specs.Others.{of_other};
ghost use Rattle.model.specs.Layout.{record_size};
ghost use Rattle.model.specs.Protocol.{tracked_limit};

use model::layout::{PEER_AT, RECORD_SIZE, TRACKED_LIMIT};

// A mark for record i: 1 if it is another peer's.
fn mark_of_other(table: &[u8], i: usize, peer: u64) -> u8
    requires { Stands table.now i }
    ensures { result ≡ cond (of_other peer (entry record_size i table.now)) 1 0 }
{
    let asked = fields::read_u64(table, i * RECORD_SIZE + PEER_AT);
    u8::from(asked != peer)
}

// Marks for the records of other peers.
fn mark_others(table: &[u8], count: usize, peer: u64, marks: &mut [u8])
    requires { (count * record_size ≤ length table.now) × (count ≤ length marks.old) }
    ensures { marks.new ≡ overwritten 0 (map (λ (r : List ℕ). cond (of_other peer r) 1 0) (entries record_size count table.now)) marks.old }
{
    for i in 0..count {
        marks[i] = mark_of_other(table, i, peer);
    }
}

// The same for all records of a table.
fn marks_of_others(table: &[u8], count: usize, peer: u64) -> [u8; TRACKED_LIMIT]
    requires { (count ≤ tracked_limit) × (count * record_size ≤ length table.now) }
    ensures { marked result (entries record_size count table.now) ≡ kept (of_other peer) (entries record_size count table.now) }
{
    // Marks for as many as there may be: there is no heap here.
    let mut marks = [0u8; TRACKED_LIMIT];
    mark_others(table, count, peer, &mut marks);
    marks
}

// Takes the peer's requests out of the table. Answers how many are left.
pub fn purge_peer(table: &mut [u8], count: usize, peer: u64) -> usize
    requires { (count ≤ tracked_limit) × (count * record_size ≤ length table.old) }
    ensures value { result ≡ length (purge_peer peer (requests_in count table.old)) }
    ensures table_after { table.new ≡ holding count (purge_peer peer (requests_in count table.old)) table.old }
{
    let marks = marks_of_others(table, count, peer);
    table::keep::keep(table, RECORD_SIZE, count, &marks)
}

// Takes all requests out of the table; the evicted ids at the region's other end stay.
pub fn purge_all(table: &mut [u8], count: usize)
    requires { count * record_size ≤ length table.old }
    ensures { table.new ≡ holding count (purge_all (requests_in count table.old)) table.old }
{
    spans::moving::clear(table, 0, count * RECORD_SIZE);
}
