// What a replay holds: areas of 131,072 bytes, longer than any that a call is lent, and maps of 4,096.
//
// Each table of numbers here is data, offsets and widths, and not what is to be done.
ghost use Rattle.std.specs.Prelude.{◌≡◌, ◌≤◌, length};

use crate::words::Words;

// The usual length of both areas of a call.
pub const USUAL: usize = 65536;

// The byte that stands in an area to which nothing was written.
pub const BLANK: u8 = 165;

// Where the settings stand in a state area: offset and width of each.
pub const SETTINGS: [(u8, u8); 4] = [(16, 4), (20, 4), (24, 4), (28, 4)];

#[derive(Drop)]
pub struct Areas {
    // the stream's state area
    state: [u8; 131072],
    // the state area that the next call is lent, and then the one that it has to leave
    pub lent: [u8; 131072],
    // the state area that the call left
    pub left: [u8; 131072],
    // the command area that the call has to leave
    pub commands: [u8; 131072],
    // the command area that the call left
    pub commands_left: [u8; 131072],
    // the stream's map, and then the one that a call has to leave
    pub map: [u8; 4096],
    // the map that the call left
    pub map_left: [u8; 4096],
}

// Numbers, each at its offset: the table has offset and width of each.
pub fn put_numbers(area: &mut [u8], table: &[(u8, u8)], numbers: &[u64])
    requires { 510 ≤ length area.old }
{
    for ((at, width), number) in table.iter().zip(numbers) {
        fields::write(area, usize::from(*at), usize::from(*width), *number);
    }
}

// The stalled peers, the evicted ids and the pending records of a state, and how many they are.
fn put_lists(area: &mut [u8], stalled: &[u8], evicted: &[u8], pending: &[u8]) -> Option<()>
    requires { 65536 ≡ length area.old }
{
    if (2048 < stalled.len()) | (62976 < evicted.len()) {
        return None;
    }
    if 62976 - evicted.len() < pending.len() {
        return None;
    }
    area[512..512 + stalled.len()].copy_from_slice(stalled);
    area[2560..2560 + pending.len()].copy_from_slice(pending);
    area[65536 - evicted.len()..].copy_from_slice(evicted);
    fields::write(area, 68, 2, (stalled.len() / 8) as u64);
    fields::write(area, 70, 2, (pending.len() / 54) as u64);
    fields::write(area, 72, 2, (evicted.len() / 32) as u64);
    Some(())
}

impl Areas {
    // Before the first stream.
    pub fn empty() -> Areas {
        Areas {
            state: [0; 131072],
            lent: [0; 131072],
            left: [0; 131072],
            commands: [0; 131072],
            commands_left: [0; 131072],
            map: [0; 4096],
            map_left: [0; 4096],
        }
    }

    // What a call left is the stream's state area.
    pub fn keep(&mut self) {
        self.state.copy_from_slice(&self.lent);
    }

    // The next call is lent the stream's state area.
    pub fn restore(&mut self) {
        self.lent.copy_from_slice(&self.state);
    }

    // The areas of a new stream: nothing of the one before is kept. The area of a longer state is filled up with zeros.
    pub fn forget(&mut self) {
        self.lent[..USUAL].fill(BLANK);
        self.lent[USUAL..].fill(0);
        self.keep();
        self.map.fill(0);
    }

    // The state area of the words of `.`, whose ten numbers these are. The settings stay.
    pub fn put_state(&mut self, numbers: &[u64], words: &Words) -> Option<()> {
        let [.., stalled, evicted, pending] = words.lists();
        let table = [
            (5, 1),
            (48, 8),
            (8, 8),
            (32, 8),
            (40, 8),
            (56, 4),
            (60, 4),
            (64, 4),
            (6, 1),
            (7, 1),
        ];
        self.lent[..16].fill(0);
        self.lent[32..USUAL].fill(0);
        self.lent[..5].copy_from_slice(b"EDT\x00\x02");
        put_numbers(&mut self.lent, &table, numbers);
        put_lists(&mut self.lent[..USUAL], stalled, evicted, pending)
    }
}
