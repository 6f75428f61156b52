// F-7's entry: the mean age of what is pending, exactly.
//
// One equation with its definition in model/specs/MeanAge.antt. It reads the state, of either version, and writes nothing.
ghost use Rattle.std.specs.Prelude.{◌≡◌};
ghost use Rattle.model.specs.MeanAge.{mean_age};

use model::layout::REGION_AT;

// The number of a refusal or 0, how many are pending, and quotient and remainder of the sum of their ages by that. Both of 8
// bytes, so that no byte of the answer is unused.
#[repr(C)]
#[derive(Clone, Copy)]
pub struct MeanAge {
    pub number: u32,
    pub count: u32,
    pub quotient: u64,
    pub remainder: u64,
}

// At a clock. Answers 0, 1, 2 or 4, and all else 0 if it is refused.
pub fn request_keeper_mean_age(state: &[u8], clock: u64) -> MeanAge
    ensures { record { number = result.number; count = result.count; quotient = result.quotient; remainder = result.remainder } ≡ mean_age state.now clock }
{
    match refusals::mean_age_refusal(state, clock) {
        Err(refusal) => MeanAge {
            number: refusal.number(),
            count: 0,
            quotient: 0,
            remainder: 0,
        },
        Ok(()) => {
            let count = fields::read_u16(state, 70);
            let mean = delivery::ages::mean_age(&state[REGION_AT..], usize::from(count), clock);
            MeanAge {
                number: 0,
                count: u32::from(count),
                quotient: mean.quotient,
                remainder: mean.remainder,
            }
        }
    }
}
