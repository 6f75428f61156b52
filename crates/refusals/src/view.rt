// Whether a view is as it should be, exactly: a first height and a row for it and each height after it.
//
// Number 8 of the refusals. Any bytes are answered, in one pass that ends at the first row that does not fit.
//
// Rows and a count: the rows are known to be whole only here.
ghost use Rattle.std.specs.Prelude.{◌≡◌, cond, ◌+◌, ◌*◌, ◌≤◌, eqb, length};
ghost use Rattle.fields.specs.Entries.{entries, entry};
ghost use Rattle.model.specs.Lists.{row_fits, rows_fit, view_fits};
ghost use Rattle.model.specs.Layout.{row_size};

use model::layout::{PLACE_SIZE, ROW_SIZE};

// How many places a row's count says are used.
fn used_places(count: u8) -> usize
    ensures { result ≡ cond (eqb count 255) 0 count }
{
    if count == 255 {
        return 0;
    }
    usize::from(count)
}

// Row i. Its unused stored bytes are among what must be zero, so all three are tested, whatever the count.
fn row_fits(rows: &[u8], i: usize) -> bool
    requires { i * row_size + row_size ≤ length rows.now }
    ensures { result ≡ row_fits (entry row_size i rows.now) }
{
    let at = i * ROW_SIZE;
    let used = used_places(rows[at]);
    // The places lie within the row only where the count fits.
    if 3 < used {
        return false;
    }
    let flags = (rows[at + PLACE_SIZE] <= 1)
        & ((rows[at + 2 * PLACE_SIZE] <= 1) & (rows[at + 3 * PLACE_SIZE] <= 1));
    let unused = at + (1 + used * PLACE_SIZE);
    let end = at + ROW_SIZE;
    flags & spans::copying::is_zero(&rows[unused..end])
}

// All rows, in one pass that ends at the first that does not fit.
fn rows_fit(rows: &[u8], count: usize) -> bool
    requires { count * row_size ≤ length rows.now }
    ensures { result ≡ rows_fit (entries row_size count rows.now) }
{
    (0..count).all(|i| row_fits(rows, i))
}

// Whether a view's length, heights and rows all fit.
pub fn view_fits(view: &[u8]) -> bool
    ensures { result ≡ view_fits view.now }
{
    if view.len() < 4 {
        return false;
    }
    let size = view.len() - 4;
    let count = size / ROW_SIZE;
    let first = fields::read_u32(view, 0);
    let sizes = (size % ROW_SIZE == 0) & (u64::from(first) + (count as u64) <= 4294967296);
    if !sizes {
        return false;
    }
    rows_fit(&view[4..], count)
}
