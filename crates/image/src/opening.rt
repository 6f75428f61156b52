// A fresh core in the state area.
ghost use Rattle.std.specs.Prelude.{◌≡◌, length};
ghost use Rattle.model.specs.State.{opened};
ghost use Rattle.model.specs.Image.{encode};
ghost use Rattle.settings.specs.Values.{settings_of};
ghost use Rattle.model.specs.Layout.{area_size};

use crate::head::Head;
use settings::{SendClock, Settings};

// The image of a fresh core; nothing of the old bytes survives.
pub fn open(area: &mut [u8], settings: Settings, clock: u64, height: u32)
    requires { length area.old ≡ area_size }
    ensures { area.new ≡ encode (opened (settings_of settings) clock height) }
{
    spans::copying::fill_zero(area);
    let head = Head {
        mode: crate::mode::NEW,
        used: false,
        sent: false,
        clock,
        settings,
        progress: clock,
        send: SendClock {
            last: clock,
            sends: 0,
        },
        peer: 0,
        downloaded: height,
        tip: 0,
        stalled: 0,
        pending: 0,
        evicted: 0,
    };
    crate::writing::write_head(area, head);
}
