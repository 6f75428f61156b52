// mark_received: ids that arrived are pending no more.
//
// The table is written, so count and facts stand beside it: a ghost field would have to hold at each write.
ghost use Rattle.std.specs.Prelude.{◌≡◌, true, ◌*◌, ◌≤◌, length};
ghost use Rattle.fields.specs.Entries.{entries, rising};
ghost use Rattle.model.specs.Delivery.{mark_received};
ghost use Rattle.model.specs.Lists.{ids_in};
ghost use Rattle.commands.specs.Pending.{requests_in, holding};
ghost use Rattle.model.specs.Layout.{id_size, record_size};
ghost use Rattle.model.specs.Protocol.{tracked_limit};

use commands::pending::Pending;
use model::layout::RECORD_SIZE;

// Takes the listed ids out of the table. Answers how many requests are left.
pub fn mark_received(table: &mut [u8], count: usize, ids: &[u8]) -> usize
    requires count_le_tracked_limit { (count ≤ tracked_limit) × (count * record_size ≤ length table.old) }
    requires table_value { rising id_size (entries record_size count table.old) ≡ true }
    ensures value { result ≡ length (mark_received (ids_in ids.now) (requests_in count table.old)) }
    ensures table_after { table.new ≡ holding count (mark_received (ids_in ids.now) (requests_in count table.old)) table.old }
{
    let marks = crate::marks::marks_of_unlisted(Pending { table, count }, ids);
    table::keep::keep(table, RECORD_SIZE, count, &marks)
}
