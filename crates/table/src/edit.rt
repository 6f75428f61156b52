// An entry put into a table.
//
// The table is written, so width and count stand beside it.
ghost use Rattle.std.specs.Prelude.{◌≡◌, ◌+◌, ◌*◌, ◌≤◌, length};
ghost use Rattle.fields.specs.Entries.{entries, inserted_at, replaced};

// A new entry at index `at`; those from there on move up.
pub fn insert(table: &mut [u8], width: usize, count: usize, at: usize, new: &[u8])
    requires { (at ≤ count) × ((length new.now ≡ width) × (count * width + width ≤ length table.old)) }
    ensures { table.new ≡ replaced width count (inserted_at at new.now (entries width count table.old)) table.old }
{
    let place = at * width;
    let size = (count - at) * width;
    spans::moving::move_up(table, place, place + width, size);
    spans::moving::overwrite(table, place, new);
}
