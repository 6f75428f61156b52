// Where a key stands in a table whose keys rise.
//
// What is asked of a key is between a key and a table, and neither carries it for the other.
ghost use Rattle.std.specs.Prelude.{◌≡◌, true, ◌+◌, ◌*◌, ◌≤◌, length, take};
ghost use Rattle.fields.specs.Entries.{entries, entry, rising};
ghost use Rattle.fields.specs.Order.{before, same};
ghost use Rattle.keys.specs.Find.{found, Passed};

use crate::Entries;

// By halving, among the entries from `from` on, where those before come before the key.
fn halved(table: Entries, key: &[u8], from: usize) -> Result<usize, usize>
    requires key_len_bound { (length key.now ≤ table.width) × (8 ≤ length key.now) }
    requires table_value { rising (length key.now) (entries table.width table.count table.bytes.now) ≡ true }
    requires passed { Passed key.now (entries table.width table.count table.bytes.now) table.count from }
    ensures { result ≡ found key.now 0 (entries table.entry.width table.entry.count table.entry.bytes.now) }
{
    let size = key.len();
    let mut lo = from;
    let mut hi = table.count;
    // Two bounds that close in: no index is counted.
    while lo < hi {
        let mid = lo + (hi - lo) / 2;
        if crate::comes_before(table.bytes, mid * table.width, key, 0, size) {
            lo = mid + 1;
        } else {
            hi = mid;
        }
    }
    if lo < table.count {
        if crate::run_same(table.bytes, lo * table.width, key, 0, size) {
            return Ok(lo);
        }
    }
    Err(lo)
}

// The table's bytes. Of what a call gives, a proof knows that it is bytes; of a field it does not.
fn bytes_of<'a>(table: Entries<'a>) -> &'a [u8]
    ensures { result.now ≡ table.entry.bytes.now }
{
    table.bytes
}

// Where the key is or would go, by its first word: the answer is that of a walk from the front.
pub fn find(table: Entries, key: &[u8]) -> Result<usize, usize>
    requires key_len_bound { (length key.now ≤ table.width) × (8 ≤ length key.now) }
    requires table_value { rising (length key.now) (entries table.width table.count table.bytes.now) ≡ true }
    ensures { result ≡ found key.now 0 (entries table.entry.width table.entry.count table.entry.bytes.now) }
{
    let bytes = bytes_of(table);
    let size = key.len();
    let place = crate::words::place(table, fields::read_u64(key, 0));
    if table.count <= place {
        return Err(place);
    }
    let words = crate::key_unlike(bytes, place * table.width, key, 0, size);
    if words.left == words.right {
        return Ok(place);
    }
    if words.right < words.left {
        return Err(place);
    }
    // Keys that share their first word.
    halved(table, key, place + 1)
}
