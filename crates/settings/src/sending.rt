// Rule 2 on a send clock that is lent.
//
// "The send clock (last send, sends counted) is one small record changed only by this rule and by picking": `send` borrows
// the record and stores what the rule in `settings` answers; `send_by` owns it, for callers that hold it by value. Both stay
// beside `send_sync_info`: it is a rule of the project that the lent clock is what the plans' sends go through.
ghost use Rattle.std.specs.Prelude.{◌≡◌, not};
ghost use Rattle.model.specs.Settings as model;
ghost use Rattle.model.specs.Peers as peers;
ghost use Rattle.settings.specs.Values.{settings_of, send_clock_of};

use crate::{SendClock, Sent, Settings};

// Whether a sync info goes out; the lent clock is then what rule 2 makes of it.
pub fn send(clock: &mut SendClock, settings: Settings, at: u64) -> bool
    ensures clock_after { send_clock_of clock.new ≡ peers.send_sync_info (settings_of settings) at (send_clock_of clock.old) }
    ensures value { result ≡ not (model.throttled (settings_of settings) at clock.old.last) }
{
    let sent = crate::send_sync_info(settings, at, *clock);
    *clock = sent.clock;
    sent.sent
}

// The same for a clock by value: it is lent for the call.
pub fn send_by(clock: SendClock, settings: Settings, at: u64) -> Sent
    ensures clock_value { send_clock_of result.clock ≡ peers.send_sync_info (settings_of settings) at (send_clock_of clock) }
    ensures sent_value { result.sent ≡ not (model.throttled (settings_of settings) at clock.last) }
{
    let mut own = clock;
    let sent = send(&mut own, settings, at);
    Sent { clock: own, sent }
}
