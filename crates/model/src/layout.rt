// The widths and sizes of docs/LAYOUT.md, under the names of specs/Layout.antt.

pub const ID_SIZE: usize = 32;

pub const PEER_SIZE: usize = 8;

// The version of the image that is written; 1 is read too.
pub const NEWEST_VERSION: u16 = 2;

pub const TYPE_SIZE: usize = 2;

pub const PAIR_SIZE: usize = 34;

pub const RECORD_SIZE: usize = 54;

// Behind a record's id: its peer, type, stamp and checks.
pub const PEER_AT: usize = 32;

pub const TYPE_AT: usize = 40;

pub const STAMP_AT: usize = 42;

pub const CHECKS_AT: usize = 50;

pub const PLACE_SIZE: usize = 35;

pub const ROW_SIZE: usize = 106;

pub const COMMAND_HEADER: usize = 17;

// A request for one id.
pub const COMMAND_SIZE: usize = 49;

pub const AREA_SIZE: usize = 65536;

pub const STALLED_AT: usize = 512;

pub const REGION_AT: usize = 2560;

// The map of the window, and where its heights' bytes start.
pub const MAP_SIZE: usize = 512;

pub const MAP_HEIGHTS_AT: usize = 64;

pub const ID_LIST_SIZE: usize = 32768;

pub const PAIR_LIST_SIZE: usize = 34816;

pub const WINDOW_PAIRS_SIZE: usize = 19584;

// A step's commands, at most.
pub const MOST_BYTES: usize = 50176;

// Most requests pending and ids evicted.
pub const TRACKED_LIMIT: usize = 1024;

// Heights of a window.
pub const WINDOW_SIZE: usize = 192;
