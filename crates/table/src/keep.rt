// A table cut down to the entries that are marked.
//
// The table is written, so width, count and marks stand beside it.
ghost use Rattle.std.specs.Prelude.{◌≡◌, ◌&&◌, ◌++◌, ◌+◌, ◌*◌, ◌≤◌, eqb, leb, length, take, drop, replicate};
ghost use Rattle.fields.specs.Number.{from_be};
ghost use Rattle.fields.specs.Overwrite.{overwritten};
ghost use Rattle.fields.specs.Entries.{entries, entry, replaced};
ghost use Rattle.fields.specs.Filter.{marked};
ghost use Rattle.table.specs.Keep.{Passed};

// Entry `from` written over entry `to`. Nothing moves while nothing was dropped.
pub fn move_entry(table: &mut [u8], width: usize, from: usize, to: usize)
    requires { (to ≤ from) × (from * width + width ≤ length table.old) }
    ensures { table.new ≡ overwritten (to * width) (entry width from table.old) table.old }
{
    if to < from {
        spans::moving::move_down(table, from * width, to * width, width);
    }
}

// Whether eight entries from `at` on are all kept: their marks in one load.
fn eight_kept(marks: &[u8], at: usize, count: usize) -> bool
    requires { (at ≤ count) × (count ≤ length marks.now) }
    ensures { result ≡ leb (at + 8) count && eqb (from_be (take 8 (drop at marks.now))) 0x0101_0101_0101_0101 }
{
    if count - at < 8 {
        return false;
    }
    fields::read_u64(marks, at) == 0x0101_0101_0101_0101
}

// The pass from `from` to `end`, one entry at a time; answers how many are kept then. Each entry moves down behind those
// kept, and the next one goes over it if it doesn't count. What a mark adds to the count is added without a branch: marks
// can't be foretold. The six stay arguments: the table is lent on, and both functions would take a struct of them apart.
fn keep_each(
    table: &mut [u8],
    width: usize,
    from: usize,
    end: usize,
    kept: usize,
    marks: &[u8],
) -> usize
    requires { (kept ≤ from) × ((from ≤ end) × ((end ≤ length marks.now) × (end * width ≤ length table.old))) }
    ensures { Passed width marks.now table.old kept from table.new result end }
{
    let mut left = kept;
    for i in from..end {
        move_entry(table, width, i, left);
        left += usize::from(marks[i] == 1);
    }
    left
}

// The same for eight entries at most, which move as one block if all are kept.
fn keep_eight(
    table: &mut [u8],
    width: usize,
    from: usize,
    end: usize,
    kept: usize,
    marks: &[u8],
) -> usize
    requires kept_le_from { (kept ≤ from) × ((from ≤ end) × ((end ≤ length marks.now) × (end * width ≤ length table.old))) }
    requires end_bound { end ≤ from + 8 }
    ensures { Passed width marks.now table.old kept from table.new result end }
{
    if eight_kept(marks, from, end) {
        spans::moving::move_down(table, from * width, kept * width, 8 * width);
        return kept + 8;
    }
    keep_each(table, width, from, end, kept, marks)
}

// How many entries stay where they are: eights that are kept, up to the first that is not.
fn still(marks: &[u8], count: usize) -> usize
    requires { count ≤ length marks.now }
    ensures within { result ≤ count }
    ensures ones { marks.now ≡ replicate result 1 ++ drop result marks.now }
{
    for at in (0..count).step_by(8) {
        if !eight_kept(marks, at, count) {
            return at;
        }
    }
    count
}

// Keeps the entries whose mark is 1, in one pass; answers how many. A test of any kind writes the marks.
pub fn keep(table: &mut [u8], width: usize, count: usize, marks: &[u8]) -> usize
    requires { (count ≤ length marks.now) × (count * width ≤ length table.old) }
    ensures value { result ≡ length (marked marks.now (entries width count table.old)) }
    ensures table_after { table.new ≡ replaced width count (marked marks.now (entries width count table.old)) table.old }
{
    let start = still(marks, count);
    let mut kept = start;
    for from in (start..count).step_by(8) {
        let end = from + (count - from).min(8);
        kept = keep_eight(table, width, from, end, kept, marks);
    }
    spans::moving::clear(table, kept * width, (count - kept) * width);
    kept
}
