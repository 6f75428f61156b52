// check_timeouts with the retries' targets noted where the requests restart.
ghost use Rattle.std.specs.Prelude.{◌≡◌, true, cond, ℕ, ◌+◌, ◌*◌, ◌≤◌, ◌<◌, length, take};
ghost use Rattle.fields.specs.Facts.{All};
ghost use Rattle.fields.specs.Entries.{entries, entry, rising};
ghost use Rattle.fields.specs.Overwrite.{overwritten};
ghost use Rattle.model.specs.Image.{request_of, request_bytes};
ghost use Rattle.model.specs.Delivery.{verdict, restarted, with_peer, mark_retried};
ghost use Rattle.peers.specs.Aims.{aimed_at};
ghost use Rattle.settings.specs.Values.{settings_of};
ghost use Rattle.commands.specs.Pending.{Stands, requests_in, holding};
ghost use Rattle.check_timeouts.specs.Checked.{pending_after_check, checked_as, retried_places};
ghost use Rattle.check_timeouts.specs.Turn.{request_at, Countable, AtMost, verdict_of, restarted_to, table_after, places_after, counts_after};
ghost use Rattle.model.specs.Layout.{id_size, record_size};
ghost use Rattle.model.specs.Protocol.{tracked_limit};

use model::layout::{CHECKS_AT, PEER_AT, RECORD_SIZE, STAMP_AT, TYPE_AT};
use peers::aim::Aim;
use settings::Settings;

#[derive(Clone, Copy)]
pub struct Checked {
    pub pending: usize,
    pub retried: usize,
    pub abandoned: usize,
    pub forgotten: usize,
}

// What a check makes of one request.
#[derive(Clone, Copy, Debug, PartialEq, Eq)]
enum Verdict {
    Waiting,
    Retried,
    Abandoned,
    Forgotten,
}

// Behind a shut gate each retry stays with its peer.
fn by_gate(aim: Aim, gate: bool) -> Aim
    ensures { (failed : ℕ) → aimed_at result failed ≡ cond gate (aimed_at aim failed) failed }
{
    if !gate {
        return Aim::Same;
    }
    aim
}

// Where a retry of what this peer failed goes.
fn target(aim: Aim, failed: u64) -> u64
    ensures { result ≡ aimed_at aim failed }
{
    match aim {
        Aim::Same => failed,
        Aim::Other(first, other) => {
            if failed == first {
                return other;
            }
            first
        }
    }
}

// The stamp and the checks of request i written anew. What is asked of its record is a clause here and below, and no ghost
// field: the table is written.
fn restart(table: &mut [u8], i: usize, clock: u64)
    requires { Stands table.old i × Countable (request_at table.old i) }
    ensures { table.new ≡ overwritten (i * record_size) (request_bytes (restarted clock (request_at table.old i))) table.old }
{
    let at = i * RECORD_SIZE;
    let checks = fields::read_u32(table, at + CHECKS_AT);
    fields::write_u64(table, at + STAMP_AT, clock);
    fields::write_u32(table, at + CHECKS_AT, checks + 1);
}

// The peer of request i becomes the one now asked. Where ids rise this is the model's mark_retried of its id.
pub fn mark_retried(table: &mut [u8], i: usize, peer: u64)
    requires { Stands table.old i }
    ensures table_after { table.new ≡ overwritten (i * record_size) (request_bytes (with_peer peer (request_at table.old i))) table.old }
    ensures by_index { (count : ℕ) → i < count → count * record_size ≤ length table.old → rising id_size (entries record_size count table.old) ≡ true → requests_in count table.new ≡ mark_retried peer (request_at table.old i).id (requests_in count table.old) }
{
    fields::write_u64(table, i * RECORD_SIZE + PEER_AT, peer);
}

// What a check judges and restarts requests by.
#[derive(Clone, Copy)]
struct Check {
    settings: Settings,
    clock: u64,
    aim: Aim,
}

impl Check {
    // The stamp decides for most requests.
    fn verdict_at(self, table: &[u8], i: usize) -> Verdict
        requires { Stands table.now i × Countable (request_at table.now i) }
        ensures { verdict_of result ≡ verdict (settings_of self.settings) self.clock (request_at table.now i) }
    {
        let at = i * RECORD_SIZE;
        let stamp = fields::read_u64(table, at + STAMP_AT);
        let typeid = fields::read_u16(table, at + TYPE_AT);
        let checks = fields::read_u32(table, at + CHECKS_AT);
        if !self.settings.expired(self.clock, typeid, checks, stamp) {
            return Verdict::Waiting;
        }
        if typeid == model::TRANSACTION_TYPE_ID {
            return Verdict::Forgotten;
        }
        if self.settings.given_up(checks + 1) {
            return Verdict::Abandoned;
        }
        Verdict::Retried
    }

    // Request i is asked again, of its target.
    fn retry(self, table: &mut [u8], i: usize)
        requires { Stands table.old i × Countable (request_at table.old i) }
        ensures { table.new ≡ overwritten (i * record_size) (request_bytes (restarted_to self.clock (aimed_at self.aim) (request_at table.old i))) table.old }
    {
        restart(table, i, self.clock);
        let failed = fields::read_u64(table, i * RECORD_SIZE + PEER_AT);
        mark_retried(table, i, target(self.aim, failed));
    }

    // Request i, with `counts` made up so far: its record moves down behind those that stay, or stays behind them to be
    // written over.
    fn turn(self, table: &mut [u8], i: usize, places: &mut [u16], counts: Checked) -> Checked
        requires stands { Stands table.old i × ((i < length places.old) × (i < tracked_limit)) }
        requires counted { AtMost i counts }
        requires judged { Countable (request_at table.old i) }
        ensures value { result ≡ counts_after (verdict (settings_of self.settings) self.clock (request_at table.old i)) counts }
        ensures table_after { table.new ≡ table_after self.clock (aimed_at self.aim) (verdict (settings_of self.settings) self.clock (request_at table.old i)) i counts.pending table.old }
        ensures places_after { places.new ≡ places_after (verdict (settings_of self.settings) self.clock (request_at table.old i)) counts.retried counts.pending places.old }
    {
        let place = counts.pending;
        let retried = counts.retried;
        match self.verdict_at(table, i) {
            Verdict::Waiting => {
                table::keep::move_entry(table, RECORD_SIZE, i, place);
                Checked {
                    pending: place + 1,
                    ..counts
                }
            }
            Verdict::Retried => {
                table::keep::move_entry(table, RECORD_SIZE, i, place);
                self.retry(table, place);
                places[retried] = place as u16;
                Checked {
                    pending: place + 1,
                    retried: retried + 1,
                    ..counts
                }
            }
            Verdict::Abandoned => Checked {
                abandoned: counts.abandoned + 1,
                ..counts
            },
            Verdict::Forgotten => Checked {
                forgotten: counts.forgotten + 1,
                ..counts
            },
        }
    }
}

// One pass over the table. The places of the retried requests come first in `places`.
pub fn check_timeouts(
    table: &mut [u8],
    count: usize,
    settings: Settings,
    clock: u64,
    gate: bool,
    aim: Aim,
    places: &mut [u16],
) -> Checked
    requires count_le_tracked_limit { (count ≤ tracked_limit) × ((count * record_size ≤ length table.old) × (count ≤ length places.old)) }
    requires table_value { rising id_size (entries record_size count table.old) ≡ true }
    requires countable { All Countable (requests_in count table.old) }
    ensures value { result ≡ checked_as (settings_of settings) clock (requests_in count table.old) }
    ensures table_after { table.new ≡ holding count (pending_after_check gate (settings_of settings) clock (aimed_at aim) (requests_in count table.old)) table.old }
    ensures places_after { take result.retried places.new ≡ retried_places (settings_of settings) clock (requests_in count table.old) 0 }
{
    let check = Check {
        settings,
        clock,
        aim: by_gate(aim, gate),
    };
    let mut counts = Checked {
        pending: 0,
        retried: 0,
        abandoned: 0,
        forgotten: 0,
    };
    for i in 0..count {
        counts = check.turn(table, i, places, counts);
    }
    let left = counts.pending;
    spans::moving::clear(table, left * RECORD_SIZE, (count - left) * RECORD_SIZE);
    counts
}
