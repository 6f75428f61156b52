// The question: the pairs of type and id that a check or a lost peer may read, strictly rising.
//
// Equal to `question_pairs` of model/specs/Calls.antt. The state area is read only, and of the command area the pairs' bytes
// are written. n pairs cost n log n comparisons.
//
// The area's size is asked for at two doors only; C lends a slice.
#![tactic(auto)]

pub mod rising;

ghost use Rattle.std.specs.Prelude.{◌≡◌, true, map, ◌+◌, ◌*◌, ◌/◌, ◌≤◌, length};
ghost use Rattle.fields.specs.Entries.{entry, joined};
ghost use Rattle.fields.specs.Overwrite.{overwritten};
ghost use Rattle.model.specs.Protocol.{header_type};
ghost use Rattle.model.specs.State.{has_sync_peer};
ghost use Rattle.model.specs.Lists.{entries_of};
ghost use Rattle.model.specs.Image.{bit, mode_of, decode, well_formed};
ghost use Rattle.model.specs.Calls.{pair_bytes, question_pairs};
ghost use Rattle.image.specs.Heads.{head_in};
ghost use Rattle.question.specs.Asked.{asked_pairs};
ghost use Rattle.model.specs.Layout.{area_size, id_size, pair_list_size, pair_size};

use image::head::Head;
use image::mode::{SYNCED, SYNCING};
use model::HEADER_TYPE_ID;
use model::layout::{ID_SIZE, PAIR_LIST_SIZE, PAIR_SIZE, REGION_AT, TYPE_SIZE};

// Id i as a header's pair, at index i of the pairs.
fn put_header(ids: &[u8], i: usize, pairs: &mut [u8])
    requires { (i * id_size + id_size ≤ length ids.now) × (i * pair_size + pair_size ≤ length pairs.old) }
    ensures { pairs.new ≡ overwritten (i * pair_size) (pair_bytes header_type (entry id_size i ids.now)) pairs.old }
{
    let from = i * ID_SIZE;
    let end = from + ID_SIZE;
    let at = i * PAIR_SIZE;
    fields::write_u16(pairs, at, HEADER_TYPE_ID);
    spans::moving::overwrite(pairs, at + TYPE_SIZE, &ids[from..end]);
}

// The ids as pairs of headers.
fn put_headers(ids: &[u8], pairs: &mut [u8])
    requires { length ids.now / id_size * pair_size ≤ length pairs.old }
    ensures { pairs.new ≡ overwritten 0 (joined (map (pair_bytes header_type) (entries_of id_size ids.now))) pairs.old }
{
    for i in 0..ids.len() / ID_SIZE {
        put_header(ids, i, pairs);
    }
}

// The pairs asked for, in the area's order: where the sync peer is lost, its pending ids but transactions, else the evicted
// ids as headers. Answers how many.
fn gather(area: &[u8], head: Head, lost: bool, pairs: &mut [u8]) -> usize
    requires area_len { (length area.now ≡ area_size) × (well_formed area.now ≡ true) }
    requires head_value { (head ≡ head_in area.now) × (length pairs.old ≡ pair_list_size) }
    ensures pairs_after { pairs.new ≡ overwritten 0 (joined (asked_pairs (decode area.now) lost)) pairs.old }
    ensures value { result ≡ length (asked_pairs (decode area.now) lost) }
{
    if lost {
        return delivery::orphans::orphans(&area[REGION_AT..], head.pending, head.peer, pairs);
    }
    let from = 65536 - head.evicted * ID_SIZE;
    put_headers(&area[from..], pairs);
    head.evicted
}

// Whether a mode has a sync peer.
#[tactic(auto, using(image_test::proofs::HeadLaws::peer_byte))]
fn has_sync_peer(mode: u8) -> bool
    ensures { result ≡ has_sync_peer (mode_of mode) }
{
    matches!(mode, SYNCING | SYNCED)
}

// The pairs at the front of `out`, none where there is no sync peer. Answers how many bytes.
pub fn question_pairs(area: &[u8], head: Head, lost: bool, out: &mut [u8]) -> usize
    requires area_len { (length area.now ≡ area_size) × (well_formed area.now ≡ true) }
    requires head_value { head ≡ head_in area.now }
    requires out_len { area_size ≤ length out.old }
    ensures out_after { out.new ≡ overwritten 0 (joined (question_pairs (decode area.now) (bit lost))) out.old }
    ensures value { result ≡ length (joined (question_pairs (decode area.now) (bit lost))) }
{
    if !has_sync_peer(head.mode) {
        return 0;
    }
    let mut pairs = [0u8; PAIR_LIST_SIZE];
    let count = gather(area, head, lost, &mut pairs);
    let size = count * PAIR_SIZE;
    crate::rising::put_rising(&pairs[..size], out)
}
