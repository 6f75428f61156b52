// Document 01 as definitions (specs/), and demand 3 proved over them (proofs/).
//
// Here only the numbers that code and definitions share: the protocol's under the names that the Rust gives them, and in
// `layout` the widths and sizes of docs/LAYOUT.md.

#![tactic(auto)]

pub mod layout;

pub const TRANSACTION_TYPE_ID: u16 = 2;

pub const HEADER_TYPE_ID: u16 = 101;

pub const BLOCK_TRANSACTIONS_TYPE_ID: u16 = 102;

pub const AD_PROOFS_TYPE_ID: u16 = 104;

pub const EXTENSION_TYPE_ID: u16 = 108;

// Most ids one request may carry.
pub const MAX_MODIFIER_REQUEST_IDS: usize = 400;
