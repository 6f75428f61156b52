// Ids of 32 bytes taken from the entries of a table.
//
// One copy of 32 bytes for each place.
ghost use Rattle.std.specs.Prelude.{◌≡◌, ℕ, ◌+◌, ◌*◌, ◌≤◌, length, take, drop};
ghost use Rattle.fields.specs.Facts.{All};
ghost use Rattle.fields.specs.Entries.{joined};
ghost use Rattle.fields.specs.Overwrite.{overwritten};
ghost use Rattle.order.specs.Gathered.{gathered};

// An id copied to `to`. All of it is read before it is written, so that it moves by words. `copy_from_slice` was
// tried: it asks whether the slices overlap, with 64 moves of bytes for when they do; by way of an array 4.6 ns, not 2.0.
pub fn put_id(table: &[u8], from: usize, ids: &mut [u8], to: usize)
    requires { (from + 32 ≤ length table.now) × (to + 32 ≤ length ids.old) }
    ensures { ids.new ≡ overwritten to (take 32 (drop from table.now)) ids.old }
{
    let a = fields::read_u64(table, from);
    let b = fields::read_u64(table, from + 8);
    let c = fields::read_u64(table, from + 16);
    let d = fields::read_u64(table, from + 24);
    fields::write_u64(ids, to, a);
    fields::write_u64(ids, to + 8, b);
    fields::write_u64(ids, to + 16, c);
    fields::write_u64(ids, to + 24, d);
}

// The ids at `offset` in the entries at `places`, one after another at the front of `ids`.
pub fn gather(table: &[u8], width: usize, offset: usize, places: &[u16], ids: &mut [u8])
    requires all { All (λ (place : ℕ). place * width + width ≤ length table.now) places.now }
    requires offset_bound { (offset + 32 ≤ width) × (length places.now * 32 ≤ length ids.old) }
    ensures { ids.new ≡ overwritten 0 (joined (gathered width offset table.now places.now)) ids.old }
{
    for (i, place) in places.iter().enumerate() {
        let from = usize::from(*place) * width + offset;
        put_id(table, from, ids, i * 32);
    }
}
