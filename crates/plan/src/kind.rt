// Step kinds by their numbers (docs/LAYOUT.md, "Step kinds"). Numbers and not an enum, since a call's kind comes from C and
// may be any byte.

pub const START: u8 = 1;

pub const PICK: u8 = 2;

pub const NEEDED_MODIFIER: u8 = 3;

pub const REORG: u8 = 4;

pub const ANNOUNCED: u8 = 5;

pub const SYNC_INFO: u8 = 6;

pub const OTHER_MESSAGE: u8 = 7;

pub const LOST_PEER: u8 = 8;

pub const RECEIVED: u8 = 9;

pub const EVICTED: u8 = 10;

pub const PROGRESS: u8 = 11;

pub const CHECK: u8 = 12;

pub const SCHEDULED_TICK: u8 = 13;

pub const SECTION_TICK: u8 = 14;

pub const SEND_FAILURE: u8 = 15;

pub const END_OF_STREAM: u8 = 16;
