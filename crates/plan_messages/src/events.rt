// Rule 7's decisions on a message: what is served, what a sync info comes to, and what goes out to its sender.
ghost use Rattle.std.specs.Prelude.{◌≡◌, ◌&&◌, ltb};
ghost use Rattle.model.specs.Protocol as model;
ghost use Rattle.model.specs.Events.{tip_outcome, raised_tip, not_above};
ghost use Rattle.plan_messages.specs.Heard.{outcome_of, tip_of};

use model::{
    AD_PROOFS_TYPE_ID, BLOCK_TRANSACTIONS_TYPE_ID, EXTENSION_TYPE_ID, HEADER_TYPE_ID,
    TRANSACTION_TYPE_ID,
};

// What a sync info comes to.
#[derive(Clone, Copy)]
pub enum Heard {
    Continue,
    Synced,
    Behind,
}

// The types that an announcement is served for: transactions, headers and the three sections.
#[tactic(auto, unfolding(model::specs::Protocol::is_announceable))]
pub fn is_announceable(typeid: u16) -> bool
    ensures { result ≡ model.is_announceable typeid }
{
    matches!(
        typeid,
        TRANSACTION_TYPE_ID
            | HEADER_TYPE_ID
            | BLOCK_TRANSACTIONS_TYPE_ID
            | AD_PROOFS_TYPE_ID
            | EXTENSION_TYPE_ID
    )
}

// Sync peer with a tip not above ours: Synced; else a tip above ours + 1: behind.
#[tactic(auto, unfolding(model::specs::Events::tip_outcome))]
pub fn tip_outcome(syncpeer: bool, ours: u32, tip: Option<u32>) -> Heard
    ensures { outcome_of result ≡ tip_outcome syncpeer ours (tip_of tip) }
{
    let Some(tip) = tip else {
        return Heard::Continue;
    };
    if syncpeer & (tip <= ours) {
        return Heard::Synced;
    }
    if u64::from(ours) + 1 < u64::from(tip) {
        return Heard::Behind;
    }
    Heard::Continue
}

// The known tip rises to the peer's.
#[tactic(auto, unfolding(model::specs::Events::raised_tip))]
pub fn raised_tip(known: u32, tip: Option<u32>) -> u32
    ensures { result ≡ raised_tip known (tip_of tip) }
{
    match tip {
        None => known,
        Some(tip) => known.max(tip),
    }
}

// Continuation ids go out if parsing worked, our height is above 0 and no tip is above it.
pub fn continues_chain(parsed: bool, ours: u32, tip: Option<u32>) -> bool
    ensures { result ≡ (parsed && (ltb 0 ours && not_above ours (tip_of tip))) }
{
    let behind = match tip {
        None => false,
        Some(tip) => ours < tip,
    };
    parsed & (0 < ours) & !behind
}
