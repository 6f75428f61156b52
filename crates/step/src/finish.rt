// What a step answers, and what a finished step writes: its sync info and the image after it.
//
// It costs the header and the stalled places where they change.
//
// The image is written, so the count of its stalled peers stands beside it. Nine numbers, 0 where refused: C is given them as
// they are.
ghost use Rattle.std.specs.Prelude.{◌≡◌, List, ℕ, ◌+◌, ◌≤◌, ◌<◌, ◌^◌, length, take, drop};
ghost use Rattle.model.specs.Calls as calls;
ghost use Rattle.peers.specs.Peers.{listed_peer};
ghost use Rattle.commands.specs.Sent.{sent_at, behind};
ghost use Rattle.step.specs.Answers.{answer_of};
ghost use Rattle.step.specs.Stalling.{places_of, stalled_then, stalled_count_then};
ghost use Rattle.step.specs.Finished.{said, counted, completed};
ghost use Rattle.model.specs.Layout.{area_size, command_header, most_bytes};
ghost use Rattle.model.specs.Protocol.{tracked_limit};

use plan::Plan;
use work::Counts;

// Nine numbers, in the order of docs/LAYOUT.md.
#[repr(C)]
#[derive(Clone, Copy)]
pub struct Answer {
    pub number: u32,
    pub outcome: u32,
    pub retried: u32,
    pub fresh: u32,
    pub abandoned: u32,
    pub forgotten: u32,
    pub pending: u32,
    pub evicted: u32,
    pub length: u32,
}

// A refused step's answer: its number, all else 0.
pub fn refused(number: u32) -> Answer
    ensures { answer_of result ≡ calls.refused number }
{
    Answer {
        number,
        outcome: 0,
        retried: 0,
        fresh: 0,
        abandoned: 0,
        forgotten: 0,
        pending: 0,
        evicted: 0,
        length: 0,
    }
}

// A finished step's answer; `end` is the commands' length.
fn finished(outcome: u8, counts: Counts, end: usize) -> Answer
    requires pending_bound { (counts.pending < 2 ^ 32) × ((counts.evicted < 2 ^ 32) × (end < 2 ^ 32)) }
    requires retried_bound { (counts.retried < 2 ^ 32) × ((counts.fresh < 2 ^ 32) × ((counts.abandoned < 2 ^ 32) × (counts.forgotten < 2 ^ 32))) }
    ensures { answer_of result ≡ record { number = 0; outcome = outcome; retried = counts.retried; fresh = counts.fresh; abandoned = counts.abandoned; forgotten = counts.forgotten; pending = counts.pending; evicted = counts.evicted; length = end } }
{
    Answer {
        number: 0,
        outcome: outcome as u32,
        retried: counts.retried as u32,
        fresh: counts.fresh as u32,
        abandoned: counts.abandoned as u32,
        forgotten: counts.forgotten as u32,
        pending: counts.pending as u32,
        evicted: counts.evicted as u32,
        length: end as u32,
    }
}

// Sync info, then the image after the step.
pub fn settle(image: &mut [u8], out: &mut [u8], count: usize, plan: Plan, counts: Counts) -> Answer
    requires image_len { (length image.old ≡ area_size) × (counts.place.at + command_header ≤ length out.old) }
    requires stalling_bound { (stalled_count_then plan.stalling count ≤ 256) × (counts.place.at ≤ most_bytes) }
    requires pending_le_tracked_limit { (counts.pending ≤ tracked_limit) × ((counts.evicted ≤ tracked_limit) × ((counts.retried ≤ tracked_limit) × ((counts.fresh ≤ tracked_limit) × ((counts.abandoned ≤ tracked_limit) × (counts.forgotten ≤ tracked_limit))))) }
    ensures by_index { (old : List ℕ) → length old ≡ count → take 2048 (drop 512 image.old) ≡ places_of old → image.new ≡ completed (counted plan.head counts.pending counts.evicted) (places_of (stalled_then plan.stalling old)) image.old }
    ensures out_after { out.new ≡ sent_at counts.place (said (listed_peer plan.says)) out.old }
    ensures result_value { answer_of result ≡ record { number = 0; outcome = plan.outcome; retried = counts.retried; fresh = counts.fresh; abandoned = counts.abandoned; forgotten = counts.forgotten; pending = counts.pending; evicted = counts.evicted; length = (behind counts.place (said (listed_peer plan.says))).at } }
{
    let says = plan.says;
    let stalling = plan.stalling;
    let head = plan.head;
    let end = crate::parts::say(out, says, counts.place);
    crate::parts::complete(image, count, stalling, head, counts);
    finished(plan.outcome, counts, end)
}
