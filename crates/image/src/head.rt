// The header of the state area, by value.
//
// Read from any area that is long enough, so its size is a clause.
ghost use Rattle.std.specs.Prelude.{◌≡◌, ◌+◌, ◌≤◌, length};
ghost use Rattle.model.specs.Image.{field};
ghost use Rattle.image.specs.Heads.{head_in};

use settings::{SendClock, Settings};

#[derive(Clone, Copy)]
pub struct Head {
    // The area's byte and no enum: it is read from any bytes, and what asks of it answers for any byte.
    pub mode: u8,
    // two marks that count beside the mode
    pub used: bool,
    pub sent: bool,
    pub clock: u64,
    pub settings: Settings,
    pub progress: u64,
    pub send: SendClock,
    pub peer: u64,
    pub downloaded: u32,
    pub tip: u32,
    pub stalled: usize,
    pub pending: usize,
    pub evicted: usize,
}

// The number of entries that the header gives a table.
pub fn count_at(area: &[u8], at: usize) -> usize
    requires { at + 2 ≤ length area.now }
    ensures { result ≡ field at 2 area.now }
{
    usize::from(fields::read_u16(area, at))
}

// The four settings.
#[tactic(auto, unfolding(crate::specs::Heads::head_in))]
pub fn read_settings(area: &[u8]) -> Settings
    requires { 74 ≤ length area.now }
    ensures { result ≡ (head_in area.now).settings }
{
    Settings {
        timeout: fields::read_u32(area, 16),
        checks: fields::read_u32(area, 20),
        interval: fields::read_u32(area, 24),
        stall: fields::read_u32(area, 28),
    }
}

// The whole header.
pub fn read_head(area: &[u8]) -> Head
    requires { 74 ≤ length area.now }
    ensures { result ≡ head_in area.now }
{
    Head {
        mode: area[5],
        used: area[6] == 1,
        sent: area[7] == 1,
        clock: fields::read_u64(area, 8),
        settings: read_settings(area),
        progress: fields::read_u64(area, 32),
        send: SendClock {
            last: fields::read_u64(area, 40),
            sends: fields::read_u32(area, 56),
        },
        peer: fields::read_u64(area, 48),
        downloaded: fields::read_u32(area, 60),
        tip: fields::read_u32(area, 64),
        stalled: count_at(area, 68),
        pending: count_at(area, 70),
        evicted: count_at(area, 72),
    }
}
