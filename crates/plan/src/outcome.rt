// Outcomes by their numbers (docs/LAYOUT.md, "Outcomes"). Numbers and not an enum: what makes a plan takes any byte.

pub const CONTINUE: u8 = 0;

pub const SYNCED: u8 = 1;

pub const BEHIND_PEER: u8 = 2;

pub const SYNC_PEER_GONE: u8 = 3;

pub const STALLED: u8 = 4;

pub const END_OF_STREAM: u8 = 5;
