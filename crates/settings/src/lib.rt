// Settings held with their rules, and the send clock, by value.
//
// Every rule that asks whether a request is expired or given up, whether a send is throttled or a peer has stalled asks
// here. Each function equals its definition in model/specs, for any clock, at the cost of a comparison. Nothing is written
// but the send clock that `sending` is lent.
#![tactic(auto)]

pub mod sending;

ghost use Rattle.std.specs.Prelude.{◌≡◌, not};
ghost use Rattle.model.specs.Settings as model;
ghost use Rattle.model.specs.Peers as peers;
ghost use Rattle.settings.specs.Values.{settings_of, send_clock_of};

// "Settings are 32-bit values held with their rules": timeout, `max_checks`, `min_sync_send_interval`, `stall_timeout`.
#[derive(Clone, Copy)]
pub struct Settings {
    pub timeout: u32,
    pub checks: u32,
    pub interval: u32,
    pub stall: u32,
}

impl Settings {
    // How long a request of a type waits at its next try. In the base one timeout serves all.
    #[tactic(auto, unfolding(crate::specs::Values::settings_of, model::specs::Settings::patience))]
    pub fn patience(self, typeid: u16, checks: u32) -> u64
        ensures { result ≡ model.patience (settings_of self) typeid checks }
    {
        u64::from(self.timeout)
    }

    // Whether a request has waited for its patience or longer.
    #[tactic(auto, unfolding(model::specs::Settings::expired))]
    pub fn expired(self, clock: u64, typeid: u16, checks: u32, stamp: u64) -> bool
        ensures { result ≡ model.expired (settings_of self) clock typeid checks stamp }
    {
        self.patience(typeid, checks) <= clock.saturating_sub(stamp)
    }

    // Whether a request with so many checks is abandoned.
    #[tactic(auto, unfolding(crate::specs::Values::settings_of, model::specs::Settings::given_up))]
    pub fn given_up(self, checks: u32) -> bool
        ensures { result ≡ model.given_up (settings_of self) checks }
    {
        self.checks <= checks
    }

    // Whether a sync info is held back, so soon after the last.
    #[tactic(auto, unfolding(crate::specs::Values::settings_of, model::specs::Settings::throttled))]
    pub fn throttled(self, clock: u64, last: u64) -> bool
        ensures { result ≡ model.throttled (settings_of self) clock last }
    {
        clock.saturating_sub(last) < u64::from(self.interval)
    }

    // Whether the sync peer has let syncing stall.
    #[tactic(auto, unfolding(crate::specs::Values::settings_of, model::specs::Settings::stalled))]
    pub fn stalled(self, clock: u64, progress: u64) -> bool
        ensures { result ≡ model.stalled (settings_of self) clock progress }
    {
        u64::from(self.stall) < clock.saturating_sub(progress)
    }

    // Demand 3's M.
    #[tactic(auto, unfolding(crate::specs::Values::settings_of, model::specs::Settings::most_requests, model::specs::Protocol::is_transaction))]
    pub fn most_requests(self, typeid: u16) -> u32
        ensures { result ≡ model.most_requests (settings_of self) typeid }
    {
        if typeid == model::TRANSACTION_TYPE_ID {
            return 1;
        }
        self.checks.max(1)
    }
}

// "The send clock (last send, sends counted) is one small record".
#[derive(Clone, Copy)]
pub struct SendClock {
    pub last: u64,
    pub sends: u32,
}

// The clock counts whether or not a sync info goes out: no `Option`, which would have none where nothing is sent.
#[derive(Clone, Copy)]
pub struct Sent {
    pub clock: SendClock,
    pub sent: bool,
}

// Rule 2: whether a sync info goes out, and the send clock after it.
#[tactic(auto, unfolding(crate::specs::Values::send_clock_of, model::specs::Peers::send_sync_info))]
pub fn send_sync_info(settings: Settings, clock: u64, send: SendClock) -> Sent
    ensures clock_value { send_clock_of result.clock ≡ peers.send_sync_info (settings_of settings) clock (send_clock_of send) }
    ensures sent_value { result.sent ≡ not (model.throttled (settings_of settings) clock send.last) }
{
    if settings.throttled(clock, send.last) {
        return Sent {
            clock: send,
            sent: false,
        };
    }
    Sent {
        clock: SendClock {
            last: clock,
            sends: send.sends.wrapping_add(1),
        },
        sent: true,
    }
}

// Picking counts sends from 0 again.
#[tactic(auto, unfolding(crate::specs::Values::send_clock_of, model::specs::Peers::reset_sends))]
pub fn reset_sends(send: SendClock) -> SendClock
    ensures { send_clock_of result ≡ peers.reset_sends (send_clock_of send) }
{
    SendClock { sends: 0, ..send }
}
