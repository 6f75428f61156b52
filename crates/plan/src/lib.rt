// What a step comes to, worked out by value before anything is written: outcome, header after it, one work, sync info.
//
// `specs/Plans.antt` says what a plan stands for in the model. Here are its types and the plans that several steps share
// (`continuing`, `sync_infos`, `next_sections`); plan_modes and plan_messages have those of single steps, plan_step that of
// any call. Reads header, numbers, peers and view, never a record, and costs the view rows that rules 4 and 5 read.
#![tactic(auto)]

pub mod continuing;
pub mod kind;
pub mod next_sections;
pub mod outcome;
pub mod shown;
pub mod sync_infos;

ghost use Rattle.std.specs.Prelude.{◌≡◌};
ghost use Rattle.plan.specs.Plans.{usual_plan};

use image::head::Head;
use peers::aim::Aim;

// The numbers of a call, as C gives them: bytes where a kind or a flag is meant, since any byte may come.
#[derive(Clone, Copy)]
pub struct Call {
    pub kind: u8,
    pub clock: u64,
    pub gate: u8,
    pub height: u32,
    pub peer: u64,
    pub typeid: u16,
    pub fork: u32,
    pub parsed: u8,
    pub hastip: u8,
    pub tip: u32,
}

// What is taken out of pending and what is asked for, and of which peer. With and without a peer are works of their own, each
// with its clause, its room and its copies.
#[derive(Clone, Copy)]
pub enum Work {
    Nothing,
    // rule 3, the listed ids
    Ids(u64),
    // rule 4
    Sections(u64),
    Received,
    Evicted,
    // a reorg, without and with a peer for rule 4
    Purge,
    PurgeSections(u64),
    // the sync peer is lost, without and with a peer to ask instead
    Lose,
    LoseAsk(u64),
    // a check, its retries by this aim, without and with a peer for fresh ids
    Check(Aim),
    CheckFresh(u64, Aim),
}

#[derive(Clone, Copy)]
pub enum Stalling {
    Stay,
    Empty,
    Join(u64),
}

// In this order: continuation ids are announced, the work is done, a sync info goes out.
#[derive(Clone, Copy)]
pub struct Plan {
    // one of `outcome`, as C is given it
    pub outcome: u8,
    // the header after the step, but for the counts of pending and evicted
    pub head: Head,
    pub announces: Option<u64>,
    pub work: Work,
    pub says: Option<u64>,
    pub stalling: Stalling,
    // every height that the rules read is in the view: the definitions' `in_view`, beside a plan that is made either way
    pub seen: bool,
}

impl Plan {
    // The usual plan, from which others differ in a few fields: it continues, tells and says nothing, leaves the stalled set
    // as it is and reads no height.
    pub fn usual(head: Head, work: Work) -> Plan
        ensures { result ≡ usual_plan head work }
    {
        Plan {
            outcome: crate::outcome::CONTINUE,
            head,
            announces: None,
            work,
            says: None,
            stalling: Stalling::Stay,
            seen: true,
        }
    }
}
