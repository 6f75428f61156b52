// Whether a table's keys rise.
//
// That a key has 8 bytes is asked of its size alone: a type for it would be unwrapped at once.
ghost use Rattle.std.specs.Prelude.{◌≡◌, ◌+◌, ◌*◌, ◌≤◌, length};
ghost use Rattle.fields.specs.Entries.{entries, rising};

use crate::Entries;

// Whether each entry's first `size` bytes come strictly before the next one's.
pub fn is_rising(table: Entries, size: usize) -> bool
    requires { (size ≤ table.width) × (8 ≤ size) }
    ensures { result ≡ rising size (entries table.entry.width table.entry.count table.entry.bytes.now) }
{
    for i in 1..table.count {
        if !crate::comes_before(
            table.bytes,
            (i - 1) * table.width,
            table.bytes,
            i * table.width,
            size,
        ) {
            return false;
        }
    }
    true
}
