// The mean age of what is pending (F-7): quotient and remainder of the sum of all ages.
//
// The sum of 1,024 ages takes up to 74 bits and is one number of 128. One pass over the records and two divisions.
//
// A table and a count, as in purge.
ghost use Rattle.std.specs.Prelude.{◌≡◌, ◌-◌, ◌*◌, ◌≤◌, length};
ghost use Rattle.fields.specs.Entries.{entry};
ghost use Rattle.model.specs.Image.{request_of};
ghost use Rattle.model.specs.MeanAge.{ages, mean_of};
ghost use Rattle.commands.specs.Pending.{Stands, requests_in};
ghost use Rattle.model.specs.Layout.{record_size};

use model::layout::{RECORD_SIZE, STAMP_AT};

// The time since record i was asked for; 0 at a clock before that, which no image has.
fn age(table: &[u8], i: usize, clock: u64) -> u64
    requires { Stands table.now i }
    ensures { result ≡ clock - (request_of (entry record_size i table.now)).stamp }
{
    clock.saturating_sub(fields::read_u64(table, i * RECORD_SIZE + STAMP_AT))
}

// The sum of all ages.
fn ages(table: &[u8], count: usize, clock: u64) -> u128
    requires { count * record_size ≤ length table.now }
    ensures { result ≡ ages clock (requests_in count table.now) }
{
    let mut sum = 0;
    for i in 0..count {
        sum += u128::from(age(table, i, clock));
    }
    sum
}

#[derive(Clone, Copy)]
pub struct Mean {
    pub quotient: u64,
    pub remainder: u64,
}

// The sum of all ages by their number, 0 and 0 where none is pending.
pub fn mean_age(table: &[u8], count: usize, clock: u64) -> Mean
    requires { count * record_size ≤ length table.now }
    ensures quotient { result.quotient ≡ (mean_of clock (requests_in count table.now)).quotient }
    ensures remainder { result.remainder ≡ (mean_of clock (requests_in count table.now)).remainder }
{
    if count == 0 {
        return Mean {
            quotient: 0,
            remainder: 0,
        };
    }
    let sum = ages(table, count, clock);
    let n = count as u128;
    Mean {
        quotient: (sum / n) as u64,
        remainder: (sum % n) as u64,
    }
}
