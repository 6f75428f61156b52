// Rule 3's filter: the ids that are neither pending nor stored.
//
// An id costs a search of the pending requests, and one of the stored pairs if it is not pending.
//
// The table is one that is written next, so it comes with a count.
ghost use Rattle.std.specs.Prelude.{◌≡◌, true, not, ◌&&◌, ◌*◌, ◌≤◌, length};
ghost use Rattle.fields.specs.Entries.{entries, joined, rising};
ghost use Rattle.fields.specs.Overwrite.{overwritten};
ghost use Rattle.model.specs.Delivery.{is_pending};
ghost use Rattle.model.specs.Requests as model;
ghost use Rattle.model.specs.Lists.{ids_in, pairs_in, pairs_fit};
ghost use Rattle.model.specs.Calls.{pair_bytes};
ghost use Rattle.commands.specs.Pending.{requests_in};
ghost use Rattle.keys.specs.Keys.{has_key};
ghost use Rattle.model.specs.Layout.{id_size, record_size};

use keys::Entries;
use lists::pairs::Pairs;
use model::layout::{ID_SIZE, PAIR_SIZE, RECORD_SIZE, TYPE_SIZE};

// Whether an entry starts with the key.
fn has_key(table: Entries, key: &[u8]) -> bool
    requires key_len_bound { (length key.now ≤ table.width) × (8 ≤ length key.now) }
    requires table_value { rising (length key.now) (entries table.width table.count table.bytes.now) ≡ true }
    ensures { result ≡ has_key key.now (entries table.entry.width table.entry.count table.entry.bytes.now) }
{
    keys::find::find(table, key).is_ok()
}

// A pair as bytes.
fn pair_of(typeid: u16, id: &[u8; ID_SIZE]) -> [u8; PAIR_SIZE]
    ensures { result ≡ pair_bytes typeid id.now }
{
    let mut pair = [0u8; PAIR_SIZE];
    fields::write_u16(&mut pair, 0, typeid);
    spans::moving::overwrite(&mut pair, TYPE_SIZE, id);
    pair
}

// Whether the pair of a type and an id is stored. On a slice and not on `Pairs`: that its bytes are bytes counts here.
fn is_stored(stored: &[u8], typeid: u16, id: &[u8; ID_SIZE]) -> bool
    requires { pairs_fit stored.now ≡ true }
    ensures { result ≡ model.is_stored (pairs_in stored.now) typeid id.now }
{
    let pairs = Entries {
        bytes: stored,
        width: PAIR_SIZE,
        count: stored.len() / PAIR_SIZE,
    };
    has_key(pairs, &pair_of(typeid, id))
}

// What is not asked for: the pending requests, and the stored pairs.
#[derive(Clone, Copy)]
struct Known<'a> {
    table: &'a [u8],
    count: usize,
    stored: Pairs<'a>,
    ghost fits: { count * record_size ≤ length table.now },
    ghost rise: { rising id_size (entries record_size count table.now) ≡ true },
}

impl Known<'_> {
    // Whether an id is pending, under whatever type.
    fn is_pending(self, id: &[u8; ID_SIZE]) -> bool
        ensures { result ≡ is_pending id.now (requests_in self.entry.count self.entry.table.now) }
    {
        let records = Entries {
            bytes: self.table,
            width: RECORD_SIZE,
            count: self.count,
        };
        has_key(records, id)
    }

    // Whether an id is neither pending nor stored.
    fn is_wanted(self, typeid: u16, id: &[u8; ID_SIZE]) -> bool
        ensures { result ≡ not (is_pending id.now (requests_in self.entry.count self.entry.table.now)) && not (model.is_stored (pairs_in self.entry.stored.bytes.now) typeid id.now) }
    {
        if self.is_pending(id) {
            return false;
        }
        !is_stored(self.stored.bytes, typeid, id)
    }
}

// The ids that rule 3 leaves, in their order, at the front of `rest`. Answers how many.
pub fn wanted(
    table: &[u8],
    count: usize,
    stored: Pairs,
    typeid: u16,
    ids: &[u8],
    rest: &mut [u8],
) -> usize
    requires ids_len_bound { (length ids.now ≤ length rest.old) × (count * record_size ≤ length table.now) }
    requires table_value { rising id_size (entries record_size count table.now) ≡ true }
    ensures rest_after { rest.new ≡ overwritten 0 (joined (model.wanted (requests_in count table.now) typeid (pairs_in stored.entry.bytes.now) (ids_in ids.now))) rest.old }
    ensures value { result ≡ length (model.wanted (requests_in count table.now) typeid (pairs_in stored.entry.bytes.now) (ids_in ids.now)) }
{
    let known = Known {
        table,
        count,
        stored,
    };
    let mut kept = 0;
    for id in ids.as_chunks::<ID_SIZE>().0 {
        if known.is_wanted(typeid, id) {
            spans::moving::overwrite(rest, kept * ID_SIZE, id);
            kept += 1;
        }
    }
    kept
}
