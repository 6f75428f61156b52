// The pending requests and sorted ids merged into a room, in one pass.
ghost use Rattle.std.specs.Prelude.{◌≡◌, true, cond, ◌++◌, map, ◌+◌, ◌-◌, ◌*◌, ◌≤◌, ◌<◌, length, take, drop, get_or, leb, Ok, Err};
ghost use Rattle.fields.specs.Zero.{zeros};
ghost use Rattle.fields.specs.Order.{before};
ghost use Rattle.fields.specs.Sort.{sorted};
ghost use Rattle.fields.specs.Entries.{entries, entry};
ghost use Rattle.fields.specs.Overwrite.{overwritten};
ghost use Rattle.model.specs.Delivery.{mark_requested};
ghost use Rattle.model.specs.Image.{request_of, request_bytes};
ghost use Rattle.commands.specs.Pending.{requests_in};
ghost use Rattle.mark_requested.specs.Marking.{marked_as, new_request};
ghost use Rattle.commands.specs.declared.tracker.TrackerError.TheVariants.{Full};
ghost use Rattle.mark_requested.specs.Choices.{ids_at, choice_at};
ghost use Rattle.mark_requested.specs.Turns.{front_after, room_after};
ghost use Rattle.model.specs.Layout.{id_size, record_size};
ghost use Rattle.model.specs.Protocol.{tracked_limit};

use crate::Placed;
use crate::choosing::Choice;
use crate::entering::Asking;
use commands::pending::Pending;
use commands::tracker::TrackerError;
use model::layout::{ID_SIZE, RECORD_SIZE};

// How far the pass is: records and ids dealt with, records in the room.
#[derive(Clone, Copy)]
pub struct Front {
    pub records: usize,
    pub ids: usize,
    pub held: usize,
}

// A new request without its id: all of them share what follows the id.
fn blank_record(asking: Asking) -> [u8; RECORD_SIZE]
    ensures { result ≡ request_bytes (new_request asking.clock asking.typeid asking.peer (zeros id_size)) }
{
    let id = [0u8; ID_SIZE];
    crate::entering::new_record(asking, &id)
}

// A new request's record, its id and then what all share.
fn put_new(room: &mut [u8], at: usize, id: &[u8; ID_SIZE], blank: &[u8; RECORD_SIZE])
    requires { at + record_size ≤ length room.old }
    ensures { room.new ≡ overwritten at (id.now ++ drop id_size blank.now) room.old }
{
    spans::moving::overwrite(room, at, id);
    spans::moving::overwrite(room, at + ID_SIZE, &blank[32..54]);
}

// One step of the pass; `blank` has what follows a new id.
fn turn(
    pending: Pending,
    new: Placed,
    blank: &[u8; RECORD_SIZE],
    front: Front,
    room: &mut [u8],
) -> Front
    requires { (front.records ≤ pending.count) × ((front.ids < length new.places.now) × (front.held * record_size + record_size ≤ length room.old)) }
    ensures value { result ≡ front_after (choice_at (ids_at new.entry.ids.now (drop front.ids new.entry.places.now)) (map request_of (drop front.records (entries record_size pending.entry.count pending.entry.table.now)))) front }
    ensures room_after { room.new ≡ room_after (choice_at (ids_at new.entry.ids.now (drop front.ids new.entry.places.now)) (map request_of (drop front.records (entries record_size pending.entry.count pending.entry.table.now)))) (entry record_size front.records pending.entry.table.now) (entry id_size (get_or new.entry.places.now front.ids 0) new.entry.ids.now ++ drop id_size blank.now) front.held room.old }
{
    match crate::choosing::next_choice(
        pending.table,
        pending.count,
        front.records,
        new.ids,
        new.places,
        front.ids,
    ) {
        Choice::Keep => {
            let from = front.records * RECORD_SIZE;
            let end = from + RECORD_SIZE;
            spans::moving::overwrite(room, front.held * RECORD_SIZE, &pending.table[from..end]);
            Front {
                records: front.records + 1,
                held: front.held + 1,
                ..front
            }
        }
        Choice::Skip => Front {
            ids: front.ids + 1,
            ..front
        },
        Choice::Enter => {
            let (ids, _) = new.ids.as_chunks::<ID_SIZE>();
            let id = &ids[usize::from(new.places[front.ids])];
            put_new(room, front.held * RECORD_SIZE, id, blank);
            Front {
                ids: front.ids + 1,
                held: front.held + 1,
                ..front
            }
        }
    }
}

// The records that are left go behind those in the room, unless they are too many.
fn put_rest(
    pending: Pending,
    most: usize,
    front: Front,
    room: &mut [u8],
) -> Result<usize, TrackerError>
    requires { (front.records ≤ pending.count) × ((front.held ≤ 1025) × (most * record_size ≤ length room.old)) }
    ensures value { result ≡ cond (leb (front.held + (pending.entry.count - front.records)) most) (Ok (front.held + (pending.entry.count - front.records))) (Err Full) }
    ensures room_after { leb (front.held + (pending.entry.count - front.records)) most ≡ true → room.new ≡ overwritten (front.held * record_size) (take ((pending.entry.count - front.records) * record_size) (drop (front.records * record_size) pending.entry.table.now)) room.old }
{
    let total = front.held + (pending.count - front.records);
    if most < total {
        return Err(TrackerError::Full);
    }
    let from = front.records * RECORD_SIZE;
    let end = pending.count * RECORD_SIZE;
    spans::moving::overwrite(room, front.held * RECORD_SIZE, &pending.table[from..end]);
    Ok(total)
}

// Table and sorted ids merged into the room. The pass stops where one record too many is in it.
pub fn merge(
    pending: Pending,
    most: usize,
    asking: Asking,
    new: Placed,
    room: &mut [u8],
) -> Result<usize, TrackerError>
    requires le_most { (pending.count ≤ most) × ((most ≤ tracked_limit) × (most * record_size + record_size ≤ length room.old)) }
    requires in_order { sorted before (ids_at new.ids.now new.places.now) ≡ ids_at new.ids.now new.places.now }
    ensures value { result ≡ marked_as most (mark_requested asking.clock asking.typeid asking.peer (ids_at new.entry.ids.now new.entry.places.now) (requests_in pending.entry.count pending.entry.table.now)) }
    ensures room_after { leb (length (mark_requested asking.clock asking.typeid asking.peer (ids_at new.entry.ids.now new.entry.places.now) (requests_in pending.entry.count pending.entry.table.now))) most ≡ true → entries record_size (length (mark_requested asking.clock asking.typeid asking.peer (ids_at new.entry.ids.now new.entry.places.now) (requests_in pending.entry.count pending.entry.table.now))) room.new ≡ map request_bytes (mark_requested asking.clock asking.typeid asking.peer (ids_at new.entry.ids.now new.entry.places.now) (requests_in pending.entry.count pending.entry.table.now)) }
{
    let blank = blank_record(asking);
    let mut front = Front {
        records: 0,
        ids: 0,
        held: 0,
    };
    // No `for`: a turn takes a record, an id or both, and what they are decides which.
    while (front.ids < new.places.len()) & (front.held <= most) {
        front = turn(pending, new, &blank, front, room);
    }
    put_rest(pending, most, front, room)
}
