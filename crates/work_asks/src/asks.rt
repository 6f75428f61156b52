// Lists asked for through rule 3, behind what a work has done before.
//
// The works with a peer to ask call these: ids, orphans, fresh, sections. Where there is no room, the answer is Full, and what
// stands in the region then is of no use.
//
// Type, peer, stored pairs and ids one by one, as rule 3 names them.
ghost use Rattle.std.specs.Prelude.{◌≡◌, [], ◌∷◌, ◌≤◌, length, eqb, Err};
ghost use Rattle.model.specs.Requests.{ask};
ghost use Rattle.model.specs.Lists.{ids_in, pairs_in, entries_of};
ghost use Rattle.request_announced.specs.ByType.{asks_by_type};
ghost use Rattle.work_asks.specs.Asked.{answered_as, ListAsks, PairsAsks, Asks};
ghost use Rattle.model.specs.Layout.{pair_size};
ghost use Rattle.commands.specs.declared.tracker.TrackerError.TheVariants.{Full};

use commands::tracker::TrackerError;
use lists::pairs::Pairs;
use model::layout::{ID_LIST_SIZE, TRACKED_LIMIT};
use plan::Call;
use request_announced::request::Written;
use work::Counts;

// What a work answers when its list was asked for, behind what it did before.
fn answer(asked: Result<Written, TrackerError>, before: Counts) -> Result<Counts, TrackerError>
    ensures { result ≡ answered_as asked before }
{
    let written = asked?;
    Ok(Counts {
        pending: written.count,
        place: written.place,
        ..before
    })
}

// The same as `ask_list`, with room to work in: `rest`. A function of its own, since no proof is found for one slice of whichever of
// two arrays was made.
fn ask_list_with(
    region: &mut [u8],
    before: Counts,
    call: Call,
    typeid: u16,
    peer: u64,
    stored: Pairs,
    ids: &[u8],
    rest: &mut [u8],
    out: &mut [u8],
) -> Result<Counts, TrackerError>
    requires asks { ListAsks before region.old ids.now out.old }
    requires rest_long { length ids.now ≤ length rest.old }
    ensures asks { Asks (eqb call.gate 1) call.clock (ask typeid peer (pairs_in stored.entry.bytes.now) (ids_in ids.now) ∷ []) before region.old out.old result region.new out.new }
    ensures region_unchanged { result ≡ Err Full → (region.new ≡ region.old) × (out.new ≡ out.old) }
{
    let asked = request_announced::request::request_announced(
        region,
        before.pending,
        TRACKED_LIMIT - before.evicted,
        call.gate == 1,
        call.clock,
        typeid,
        peer,
        stored,
        ids,
        rest,
        out,
        before.place,
    );
    answer(asked, before)
}

// One list of ids. Mostly they are few, and so is the room to clear for them.
pub fn ask_list(
    region: &mut [u8],
    before: Counts,
    call: Call,
    typeid: u16,
    peer: u64,
    stored: Pairs,
    ids: &[u8],
    out: &mut [u8],
) -> Result<Counts, TrackerError>
    requires { ListAsks before region.old ids.now out.old }
    ensures asks { Asks (eqb call.gate 1) call.clock (ask typeid peer (pairs_in stored.entry.bytes.now) (ids_in ids.now) ∷ []) before region.old out.old result region.new out.new }
    ensures region_unchanged { result ≡ Err Full → (region.new ≡ region.old) × (out.new ≡ out.old) }
{
    if ids.len() <= 1024 {
        let mut few = [0u8; TRACKED_LIMIT];
        return ask_list_with(
            region, before, call, typeid, peer, stored, ids, &mut few, out,
        );
    }
    let mut rest = [0u8; ID_LIST_SIZE];
    ask_list_with(
        region, before, call, typeid, peer, stored, ids, &mut rest, out,
    )
}

// Pairs of type and id, one list a type.
pub fn ask_pairs(
    region: &mut [u8],
    before: Counts,
    call: Call,
    peer: u64,
    stored: Pairs,
    pairs: &[u8],
    out: &mut [u8],
) -> Result<Counts, TrackerError>
    requires { PairsAsks before region.old pairs.now out.old }
    ensures { Asks (eqb call.gate 1) call.clock (asks_by_type peer (pairs_in stored.entry.bytes.now) (entries_of pair_size pairs.now)) before region.old out.old result region.new out.new }
{
    let asked = request_announced::by_type::request_by_type(
        region,
        before.pending,
        TRACKED_LIMIT - before.evicted,
        call.gate == 1,
        call.clock,
        peer,
        stored,
        pairs,
        out,
        before.place,
    );
    answer(asked, before)
}
