// The works that ask a peer for sections: rule 4's, without and with a reorg before.
//
// `sections` and `purge_sections` are the works of their names (plan::Work) on the region of an image.
//
// Region and room are written: what is asked of them is `Tracked` and `HasRoom`. Pairs as many as there may be: there is no
// heap.
ghost use Rattle.std.specs.Prelude.{List, ℕ, eqb};
ghost use Rattle.std.proofs.Math.Option.{some};
ghost use Rattle.model.specs.State.{State};
ghost use Rattle.model.specs.Sections.{request_sections_from};
ghost use Rattle.model.specs.Lists.{view_of};
ghost use Rattle.model.specs.Calls as calls;
ghost use Rattle.plan.specs.declared.Work.TheVariants as works;
ghost use Rattle.work.specs.Worked.{Tracked, HasRoom, Given, Performs, worked_by};
ghost use Rattle.work_asks.specs.Asked.{SectionsAsks, Asks};
ghost use Rattle.model.specs.Layout.{most_bytes};

use commands::place::Place;
use commands::tracker::TrackerError;
use image::head::Head;
use lists::pairs::Pairs;
use lists::view::View;
use model::layout::{PAIR_SIZE, WINDOW_PAIRS_SIZE};
use plan::Call;
use work::Counts;

// The window's missing sections through rule 3, behind what a work has done before. The places' own flags decide what is stored,
// so there are no stored pairs.
fn ask_sections(
    region: &mut [u8],
    before: Counts,
    call: Call,
    peer: u64,
    downloaded: u32,
    view: View,
    out: &mut [u8],
) -> Result<Counts, TrackerError>
    requires { SectionsAsks before region.old out.old }
    ensures { Asks (eqb call.gate 1) call.clock (request_sections_from (view_of view.entry.bytes.now) call.height downloaded (some peer)).acts before region.old out.old result region.new out.new }
{
    let none = Pairs { bytes: b"" };
    let mut pairs = [0u8; WINDOW_PAIRS_SIZE];
    let number = heights::window::missing(view, call.height, downloaded, &mut pairs);
    let size = number * PAIR_SIZE;
    crate::asks::ask_pairs(region, before, call, peer, none, &pairs[..size], out)
}

// The missing sections are asked for.
pub fn sections(
    region: &mut [u8],
    head: Head,
    call: Call,
    peer: u64,
    downloaded: u32,
    view: View,
    out: &mut [u8],
    place: Place,
) -> Result<Counts, TrackerError>
    requires tracked { Tracked head region.old }
    requires room { HasRoom place most_bytes out.old }
    ensures { (st : State) (c : calls.Call) (ids stored : List ℕ) → Given head region.old call ids stored view.entry.bytes.now st c → Performs place (worked_by st c downloaded (works.Sections peer)) out.old result region.new out.new }
{
    let before = Counts::unasked(head.pending, head.evicted, place);
    ask_sections(region, before, call, peer, downloaded, view, out)
}

// All requests are dropped, then the sections are asked for.
pub fn purge_sections(
    region: &mut [u8],
    head: Head,
    call: Call,
    peer: u64,
    downloaded: u32,
    view: View,
    out: &mut [u8],
    place: Place,
) -> Result<Counts, TrackerError>
    requires tracked { Tracked head region.old }
    requires room { HasRoom place most_bytes out.old }
    ensures { (st : State) (c : calls.Call) (ids stored : List ℕ) → Given head region.old call ids stored view.entry.bytes.now st c → Performs place (worked_by st c downloaded (works.PurgeSections peer)) out.old result region.new out.new }
{
    delivery::purge::purge_all(region, head.pending);
    let before = Counts::unasked(0, head.evicted, place);
    ask_sections(region, before, call, peer, downloaded, view, out)
}
