// Rule 4's window: downloaded + 1 to min(downloaded + 192, chain height), up to the first absent header.
//
// Pairs are written one by one into room that is lent, so an index stands beside it.
ghost use Rattle.std.specs.Prelude.{◌≡◌, true, false, map, ℕ, ◌+◌, ◌-◌, ◌*◌, ◌≤◌, ◌<◌, min, length, get_or};
ghost use Rattle.fields.specs.Entries.{joined};
ghost use Rattle.fields.specs.Overwrite.{overwritten};
ghost use Rattle.model.specs.Protocol.{window_size};
ghost use Rattle.model.specs.Sections.{window_within};
ghost use Rattle.model.specs.Lists.{view_of};
ghost use Rattle.heights.specs.Rows.{row_at};
ghost use Rattle.heights.specs.Pairs.{row_pairs, place_pairs};
ghost use Rattle.heights.specs.Window.{item_pair};
ghost use Rattle.model.specs.Layout.{pair_size, place_size, row_size, window_pairs_size};

use lists::view::View;
use model::layout::{PAIR_SIZE, PLACE_SIZE, ROW_SIZE, WINDOW_SIZE};

// The sum saturates: it may be above 2^32 - 1.
fn window_end(chain: u32, downloaded: u32) -> u32
    ensures { result ≡ min (downloaded + window_size) chain }
{
    downloaded.saturating_add(WINDOW_SIZE as u32).min(chain)
}

// Whether every height that rule 4 reads has a row.
pub fn window_seen(view: View, chain: u32, downloaded: u32) -> bool
    ensures { (peer : ℕ) → result ≡ (window_within (min (downloaded + window_size) chain - downloaded) (view_of view.entry.bytes.now) peer downloaded).in_view }
{
    let first = crate::rows::first_height(view.bytes);
    let count = crate::rows::row_count(view.bytes);
    let end = window_end(chain, downloaded);
    for height in downloaded..end {
        let next = height + 1;
        let Some(row) = crate::rows::row_of(first, count, next) else {
            return false;
        };
        if crate::rows::is_absent(view.bytes, row) {
            return true;
        }
    }
    true
}

// Whether the flag behind a pair says that it is stored.
fn is_stored(view: &[u8], end: usize) -> bool
    requires { end < length view.now }
    ensures stored { result ≡ true → get_or view.now end 0 ≡ 1 }
    ensures missing { result ≡ false → get_or view.now end 0 ≡ 1 → ⊥ }
{
    view[end] == 1
}

// A place's type and id, which stand side by side, at index `to` of the pairs, unless the place is stored. Answers the
// index behind them.
fn put_place(view: &[u8], at: usize, pairs: &mut [u8], to: usize) -> usize
    requires place_size_in_bounds { at + place_size ≤ length view.now }
    requires pair_size_in_bounds { (to + length (place_pairs at view.now)) * pair_size ≤ length pairs.old }
    ensures value { result ≡ to + length (place_pairs at view.now) }
    ensures pairs_after { pairs.new ≡ overwritten (to * pair_size) (joined (place_pairs at view.now)) pairs.old }
{
    let end = at + PAIR_SIZE;
    if is_stored(view, end) {
        return to;
    }
    spans::moving::overwrite(pairs, to * PAIR_SIZE, &view[at..end]);
    to + 1
}

// The pairs of row i from index `to` on. Answers the index behind them.
fn put_row(view: &[u8], i: usize, pairs: &mut [u8], to: usize) -> usize
    requires row_size_in_bounds { (i * row_size + 4 + row_size ≤ length view.now) × (get_or (row_at i view.now) 0 0 ≤ 3) }
    requires pair_size_in_bounds { (to + length (row_pairs i view.now)) * pair_size ≤ length pairs.old }
    ensures value { result ≡ to + length (row_pairs i view.now) }
    ensures pairs_after { pairs.new ≡ overwritten (to * pair_size) (joined (row_pairs i view.now)) pairs.old }
{
    let count = crate::rows::count_at(view, i);
    let mut found = to;
    for k in 0..count {
        found = put_place(view, i * ROW_SIZE + 5 + k * PLACE_SIZE, pairs, found);
    }
    found
}

// The walk of `window_seen` and of rule 5, which stop for other reasons: one walk for all would take a closure whose contract
// says what a loop's invariant says now, and is no plainer.
//
// The window's sections that are not stored by their own flag, as pairs of type and id at the front of `pairs`, heights
// rising. Answers how many.
pub fn missing(view: View, chain: u32, downloaded: u32, pairs: &mut [u8]) -> usize
    requires { window_pairs_size ≤ length pairs.old }
    ensures by_index { (peer : ℕ) → pairs.new ≡ overwritten 0 (joined (map item_pair (window_within (min (downloaded + window_size) chain - downloaded) (view_of view.entry.bytes.now) peer downloaded).items)) pairs.old }
    ensures by_index_2 { (peer : ℕ) → result ≡ length (window_within (min (downloaded + window_size) chain - downloaded) (view_of view.entry.bytes.now) peer downloaded).items }
{
    let first = crate::rows::first_height(view.bytes);
    let count = crate::rows::row_count(view.bytes);
    let end = window_end(chain, downloaded);
    let mut found = 0;
    for height in downloaded..end {
        let next = height + 1;
        let Some(row) = crate::rows::row_of(first, count, next) else {
            return found;
        };
        if crate::rows::is_absent(view.bytes, row) {
            return found;
        }
        found = put_row(view.bytes, row, pairs, found);
    }
    found
}
