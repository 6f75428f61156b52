// The orphans of a lost peer: its requests that are no transactions, as pairs of type and id. delivery.rs, purge_peer.
//
// A table and a count, as in purge: the same region is written there.
ghost use Rattle.std.specs.Prelude.{◌≡◌, map, ◌+◌, ◌*◌, ◌≤◌, length};
ghost use Rattle.fields.specs.Entries.{entry, joined};
ghost use Rattle.fields.specs.Overwrite.{overwritten};
ghost use Rattle.model.specs.Delivery.{Request, orphans_of};
ghost use Rattle.model.specs.Calls.{pair_bytes};
ghost use Rattle.commands.specs.Pending.{Stands, requests_in};
ghost use Rattle.delivery.specs.Orphans.{is_orphan, pair_in};
ghost use Rattle.model.specs.Layout.{pair_size, record_size};

use model::layout::{PAIR_SIZE, PEER_AT, RECORD_SIZE, TYPE_AT, TYPE_SIZE};

// Whether record i is the peer's and no transaction.
fn is_orphan(table: &[u8], i: usize, peer: u64) -> bool
    requires { Stands table.now i }
    ensures { result ≡ is_orphan peer (entry record_size i table.now) }
{
    let at = i * RECORD_SIZE;
    let asked = fields::read_u64(table, at + PEER_AT);
    let typeid = fields::read_u16(table, at + TYPE_AT);
    (asked == peer) & (typeid != model::TRANSACTION_TYPE_ID)
}

// Writes record i's type and id at index `to` of the pairs.
fn put_pair(table: &[u8], i: usize, pairs: &mut [u8], to: usize)
    requires { Stands table.now i × (to * pair_size + pair_size ≤ length pairs.old) }
    ensures { pairs.new ≡ overwritten (to * pair_size) (pair_in (entry record_size i table.now)) pairs.old }
{
    let from = i * RECORD_SIZE;
    let at = to * PAIR_SIZE;
    fields::write_u16(pairs, at, fields::read_u16(table, from + TYPE_AT));
    order::gathering::put_id(table, from, pairs, at + TYPE_SIZE);
}

// The peer's requests that are no transactions, as pairs of type and id at the front of `pairs`, in the table's order.
// Answers how many.
pub fn orphans(table: &[u8], count: usize, peer: u64, pairs: &mut [u8]) -> usize
    requires { (count * record_size ≤ length table.now) × (count * pair_size ≤ length pairs.old) }
    ensures value { result ≡ length (orphans_of peer (requests_in count table.now)) }
    ensures pairs_after { pairs.new ≡ overwritten 0 (joined (map (λ (r : Request). pair_bytes r.type_id r.id) (orphans_of peer (requests_in count table.now)))) pairs.old }
{
    let mut found = 0;
    for i in 0..count {
        if is_orphan(table, i, peer) {
            put_pair(table, i, pairs, found);
            found += 1;
        }
    }
    found
}
