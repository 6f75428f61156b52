// The plan of a call on a state area, before anything is written.
ghost use Rattle.std.specs.Prelude.{◌≡◌};
ghost use Rattle.model.specs.Image.{decode};
ghost use Rattle.model.specs.Layout.{area_size};
ghost use Rattle.image.specs.Heads.{head_in};
ghost use Rattle.plan.specs.Plans.{Follows};
ghost use Rattle.refusals.specs.Lent.{call_with};
ghost use Rattle.refusals.specs.Refusals.{given_refusal};

use image::head::Head;
use lists::view::View;
use model::layout::{REGION_AT, STALLED_AT};
use peers::stalled_set::StalledPlaces;
use plan::shown::Shown;
use plan::{Call, Plan};
use refusals::lent::Lists;

// A step that none of 1, 2 and 4 to 8 refuses.
pub fn plan(state: &[u8], head: Head, call: Call, lists: Lists) -> Plan
    requires { (given_refusal state.now area_size (call_with call lists) ≡ 0) × (head ≡ head_in state.now) }
    ensures { Follows (decode state.now) (call_with call lists.entry) result }
{
    let places = StalledPlaces {
        bytes: &state[STALLED_AT..REGION_AT],
        count: head.stalled,
    };
    let view = View { bytes: lists.view };
    let shown = Shown {
        height: call.height,
        peers: lists.peers,
        view,
    };
    plan_step::step::plan_step(head, call, places, lists.ids, shown)
}
