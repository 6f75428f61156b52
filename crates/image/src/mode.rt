// Modes by their numbers in the header (docs/LAYOUT.md, "State area"). Numbers and not an enum, since a header is read from
// any bytes.

pub const NEW: u8 = 0;

pub const SEEKING: u8 = 1;

pub const SYNCING: u8 = 2;

pub const SYNCED: u8 = 3;

pub const ENDED: u8 = 4;
