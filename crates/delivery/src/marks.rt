// Marks for the records of a table, 1 for those that stay.
//
// A mark a record, made by one loop and read by another: an array of fixed size, and a count.
ghost use Rattle.std.specs.Prelude.{◌≡◌, ◌==◌, ◌∷◌, [], ℕ, ◌≤◌, length, take, count_by};
ghost use Rattle.fields.specs.Entries.{entries};
ghost use Rattle.fields.specs.Filter.{marked};
ghost use Rattle.model.specs.Lists.{ids_in};
ghost use Rattle.delivery.specs.Records.{unlisted};
ghost use Rattle.model.specs.Layout.{record_size};

use commands::pending::Pending;
use keys::Entries;
use model::layout::{ID_SIZE, RECORD_SIZE, TRACKED_LIMIT};

// Takes the mark from the record that has this id, by a binary search.
fn unmark(pending: Pending, id: &[u8; ID_SIZE], marks: &mut [u8])
    requires { pending.count ≤ length marks.old }
    ensures { marked marks.new (entries record_size pending.entry.count pending.entry.table.now) ≡ unlisted (id.now ∷ []) (marked marks.old (entries record_size pending.entry.count pending.entry.table.now)) }
{
    let records = Entries {
        bytes: pending.table,
        width: RECORD_SIZE,
        count: pending.count,
    };
    if let Ok(i) = keys::find::find(records, id) {
        marks[i] = 0;
    }
}

// Takes the marks from all records whose id is listed.
fn unmark_listed(pending: Pending, ids: &[u8], marks: &mut [u8])
    requires { pending.count ≤ length marks.old }
    ensures { marked marks.new (entries record_size pending.entry.count pending.entry.table.now) ≡ unlisted (ids_in ids.now) (marked marks.old (entries record_size pending.entry.count pending.entry.table.now)) }
{
    for id in ids.as_chunks::<ID_SIZE>().0 {
        unmark(pending, id, marks);
    }
}

// Marks for the records whose id is not listed.
pub fn marks_of_unlisted(pending: Pending, ids: &[u8]) -> [u8; TRACKED_LIMIT]
    ensures { marked result (entries record_size pending.entry.count pending.entry.table.now) ≡ unlisted (ids_in ids.now) (entries record_size pending.entry.count pending.entry.table.now) }
{
    // Marks for as many as there may be: there is no heap here.
    let mut marks = [1u8; TRACKED_LIMIT];
    unmark_listed(pending, ids, &mut marks);
    marks
}

// How many of the first `count` marks are left.
pub fn marks_left(marks: &[u8], count: usize) -> usize
    requires { count ≤ length marks.now }
    ensures { result ≡ count_by (λ (m : ℕ). m == 1) (take count marks.now) }
{
    let mut left = 0;
    // A chain of `filter` and `count` compiles to a branch for each mark, a loop to vectors.
    for mark in &marks[..count] {
        if *mark == 1 {
            left += 1;
        }
    }
    left
}
