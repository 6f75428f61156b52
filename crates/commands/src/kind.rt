// Kinds of commands by their numbers (docs/LAYOUT.md, "Commands"). Numbers and not an enum: `put_command` writes any byte that it is
// given.

pub const REQUEST: u8 = 1;

pub const ANNOUNCE: u8 = 2;

pub const SYNC_INFO: u8 = 3;
