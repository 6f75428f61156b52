// Whether a step is worked out on copies of the areas.
//
// Where the lists of a work are several, some may be entered before one finds no room, and behind an announcement commands
// are written before that is known. A work of one list finds out before it touches anything.
ghost use Rattle.std.specs.Prelude.{◌≡◌};
ghost use Rattle.step.specs.Copies.{is_told, works_on_copies};

use plan::Work;

// Whether somebody is told of continuation ids.
fn is_told(announces: Option<u64>) -> bool
    ensures { result ≡ is_told announces }
{
    announces.is_some()
}

// Whether a refusal as 10 may come after something was written.
pub fn works_on_copies(work: Work, announces: Option<u64>) -> bool
    ensures { result ≡ works_on_copies work announces }
{
    match work {
        Work::Nothing => false,
        Work::Ids(_) => is_told(announces),
        Work::Sections(_) => true,
        Work::Received => false,
        Work::Evicted => is_told(announces),
        Work::Purge => false,
        Work::PurgeSections(_) => true,
        Work::Lose => false,
        Work::LoseAsk(_) => true,
        Work::Check(_) => false,
        Work::CheckFresh(_, _) => false,
    }
}
