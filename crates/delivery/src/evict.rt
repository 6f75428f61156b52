// schedule_rerequest: evicted ids leave pending and join the evicted list.
//
// The region is written, so counts and facts stand beside it: a ghost field would have to hold at each write.
ghost use Rattle.std.specs.Prelude.{◌≡◌, true, ◌+◌, ◌*◌, ◌≤◌, length};
ghost use Rattle.fields.specs.Entries.{entries, rising};
ghost use Rattle.model.specs.Delivery.{pending_after_eviction, evicted_after_eviction};
ghost use Rattle.model.specs.Lists.{ids_in};
ghost use Rattle.commands.specs.Pending.{requests_in};
ghost use Rattle.delivery.specs.Region.{evicted_in, ending_with, scheduled_as, region_then};
ghost use Rattle.model.specs.Layout.{id_size, record_size, table_size};
ghost use Rattle.model.specs.Protocol.{tracked_limit};

use commands::pending::Pending;
use commands::tracker::TrackerError;
use lists::ids::Ids;
use model::layout::{ID_SIZE, RECORD_SIZE, TRACKED_LIMIT};

// Puts ids behind the evicted ones, which move down to make room.
fn append_evicted(region: &mut [u8], evicted: usize, ids: Ids)
    requires { evicted * id_size + length ids.bytes.now ≤ length region.old }
    ensures { region.new ≡ ending_with (evicted_after_eviction (ids_in ids.entry.bytes.now) (evicted_in evicted region.old)) region.old }
{
    let size = evicted * ID_SIZE;
    let from = region.len() - size;
    spans::moving::move_down(region, from, from - ids.bytes.len(), size);
    spans::moving::overwrite(region, region.len() - ids.bytes.len(), ids.bytes);
}

// With more than 1,024 pending and evicted then, the answer is Full and the region stays.
pub fn schedule_rerequest(
    region: &mut [u8],
    count: usize,
    evicted: usize,
    ids: Ids,
) -> Result<usize, TrackerError>
    requires le_tracked_limit { (count + evicted ≤ tracked_limit) × (table_size ≤ length region.old) }
    requires region_value { rising id_size (entries record_size count region.old) ≡ true }
    ensures value { result ≡ scheduled_as tracked_limit (pending_after_eviction (ids_in ids.entry.bytes.now) (requests_in count region.old)) (evicted_after_eviction (ids_in ids.entry.bytes.now) (evicted_in evicted region.old)) }
    ensures region_after { region.new ≡ region_then tracked_limit count (pending_after_eviction (ids_in ids.entry.bytes.now) (requests_in count region.old)) (evicted_after_eviction (ids_in ids.entry.bytes.now) (evicted_in evicted region.old)) region.old }
{
    let before = Pending {
        table: region,
        count,
    };
    let marks = crate::marks::marks_of_unlisted(before, ids.bytes);
    let pending = crate::marks::marks_left(&marks, count);
    if TRACKED_LIMIT < pending + evicted + ids.bytes.len() / ID_SIZE {
        return Err(TrackerError::Full);
    }
    table::keep::keep(region, RECORD_SIZE, count, &marks);
    append_evicted(region, evicted, ids);
    Ok(pending)
}
