// Rows of a view: which heights have one, and what its count and its places' flags say.
//
// Rules 4 and 5 ask no more of a height than this. An answer costs a few byte reads, wherever the row is.
//
// On bytes and not on a `View`: a row asks only that it lies within them.
ghost use Rattle.std.specs.Prelude.{◌≡◌, ◌+◌, ◌*◌, ◌≤◌, length, get_or};
ghost use Rattle.model.specs.Lists.{first_height, row_count, header_of};
ghost use Rattle.heights.specs.Rows.{row_of, row_at, is_absent, is_complete};
ghost use Rattle.model.specs.Layout.{row_size};

use model::layout::{PLACE_SIZE, ROW_SIZE};

// The height of the first row.
#[tactic(auto, unfolding(model::specs::Lists::first_height))]
pub fn first_height(view: &[u8]) -> u32
    requires { 4 ≤ length view.now }
    ensures { result ≡ first_height view.now }
{
    fields::read_u32(view, 0)
}

// How many heights have a row.
#[tactic(auto, unfolding(model::specs::Lists::row_count))]
pub fn row_count(view: &[u8]) -> usize
    requires { 4 ≤ length view.now }
    ensures { result ≡ row_count view.now }
{
    (view.len() - 4) / ROW_SIZE
}

// The index of a height's row, if it is one of the `count` from `first` on. By `as`: there is no `From<u32>` for usize.
#[tactic(auto, unfolding(crate::specs::Rows::row_of))]
pub fn row_of(first: u32, count: usize, height: u32) -> Option<usize>
    ensures { result ≡ row_of first count height }
{
    let row = height.saturating_sub(first) as usize;
    (first <= height && row < count).then_some(row)
}

// How many places of row i are used, or 255.
#[tactic(auto, using(crate::proofs::RowLaws::row_first))]
pub fn count_at(view: &[u8], i: usize) -> usize
    requires { i * row_size + 4 + row_size ≤ length view.now }
    ensures { result ≡ get_or (row_at i view.now) 0 0 }
{
    usize::from(view[i * ROW_SIZE + 4])
}

// Whether row i says that the header is absent.
#[tactic(auto, using(crate::proofs::RowLaws::absent_byte))]
pub fn is_absent(view: &[u8], i: usize) -> bool
    requires { i * row_size + 4 + row_size ≤ length view.now }
    ensures { result ≡ is_absent (header_of (row_at i view.now)) }
{
    view[i * ROW_SIZE + 4] == 255
}

// The header is present, and each place is unused or stored by its own flag.
pub fn is_complete(view: &[u8], i: usize) -> bool
    requires { i * row_size + 4 + row_size ≤ length view.now }
    ensures { result ≡ is_complete (header_of (row_at i view.now)) }
{
    let at = i * ROW_SIZE + 4;
    let count = view[at];
    let first = (count < 1) | (view[at + PLACE_SIZE] == 1);
    let second = (count < 2) | (view[at + 2 * PLACE_SIZE] == 1);
    let third = (count < 3) | (view[at + 3 * PLACE_SIZE] == 1);
    (count < 4) & (first & (second & third))
}
