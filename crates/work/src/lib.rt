// A plan's work on the region of an image, be it the state area's own or a copy's: what it answers, and what stands in the
// region after it.
//
// Here are the works (plan::Work) that ask nobody: `nothing`, those that take requests out of pending in `removals`, the
// check in `region_check`; work_asks has those with a peer to ask. Each equals `worked_by` of specs/Worked.antt. The region
// is written and, by a check, commands; a work costs what delivery, check_timeouts and retries say.
#![tactic(auto)]

pub mod region_check;
pub mod removals;

ghost use Rattle.std.specs.Prelude.{◌≡◌, ℕ, List};
ghost use Rattle.model.specs.State.{State};
ghost use Rattle.model.specs.Calls as calls;
ghost use Rattle.work.specs.Worked.{Tracked, Given, Performs, worked_by, unasked};
ghost use Rattle.plan.specs.declared.Call.{Call};
ghost use Rattle.plan.specs.declared.Work.TheVariants as works;

use commands::place::Place;
use commands::tracker::TrackerError;
use image::head::Head;

#[derive(Clone, Copy)]
pub struct Counts {
    pub pending: usize,
    pub evicted: usize,
    pub retried: usize,
    pub fresh: usize,
    pub abandoned: usize,
    pub forgotten: usize,
    // where the next command goes
    pub place: Place,
}

impl Counts {
    // So many pending and evicted, and nothing else done.
    pub fn unasked(pending: usize, evicted: usize, place: Place) -> Counts
        ensures { result ≡ unasked pending evicted place }
    {
        Counts {
            pending,
            evicted,
            retried: 0,
            fresh: 0,
            abandoned: 0,
            forgotten: 0,
            place,
        }
    }
}

// No work: the region stays.
pub fn nothing(head: Head, place: Place) -> Result<Counts, TrackerError>
    ensures { (st : State) (c : calls.Call) (region ids stored view out : List ℕ) (call : Call) → Tracked head region → Given head region call ids stored view st c → (downloaded : ℕ) → Performs place (worked_by st c downloaded works.Nothing) out result region out }
{
    Ok(Counts::unasked(head.pending, head.evicted, place))
}
