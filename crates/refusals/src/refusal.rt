// Why a call is refused.
ghost use Rattle.std.specs.Prelude.{◌≡◌};
ghost use Rattle.refusals.specs.Numbers.{number_of};
ghost use Rattle.refusals.specs.declared.refusal.Refusal.TheVariants as refusal;

use commands::tracker::TrackerError;

// In the order of docs/LAYOUT.md, "Refusals", with the numbers that it gives them.
#[derive(Clone, Copy, Debug, PartialEq, Eq)]
pub enum Refusal {
    StateArea = 1,
    Image = 2,
    CommandArea = 3,
    Clock = 4,
    Call = 5,
    Lists = 6,
    Peers = 7,
    View = 8,
    Unseen = 9,
    Full = 10,
    Stalled = 11,
    Map = 12,
}

impl Refusal {
    // The number that an entry answers, by a name and not by `From`: C's word for it.
    pub fn number(self) -> u32
        ensures { result ≡ number_of self }
    {
        self as u32
    }
}

impl From<TrackerError> for Refusal {
    ghost from_gives = { λ _ r. r ≡ refusal.Full };

    fn from(_error: TrackerError) -> Refusal {
        Refusal::Full
    }
}
