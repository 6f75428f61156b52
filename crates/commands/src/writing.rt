// Commands written one behind another.
//
// Ids come with their count: nothing is divided here, so they are counted once, by the caller.
ghost use Rattle.std.specs.Prelude.{◌≡◌, ◌∷◌, ◌+◌, ◌*◌, ◌≤◌, length};
ghost use Rattle.fields.specs.Number.{to_be};
ghost use Rattle.fields.specs.Overwrite.{overwritten};
ghost use Rattle.model.specs.Requests.{commands_of, request};
ghost use Rattle.model.specs.Commands.{command_bytes, all_command_bytes};
ghost use Rattle.model.specs.Lists.{ids_in};
ghost use Rattle.model.specs.Layout.{command_header, id_size, type_size};
ghost use Rattle.model.specs.Protocol.{tracked_limit};

use crate::kind::REQUEST;
use crate::place::Place;
use model::layout::COMMAND_HEADER;

// Kind and type of a command.
fn put_kind(out: &mut [u8], at: usize, kind: u8, typeid: u16)
    requires { at + (1 + type_size) ≤ length out.old }
    ensures { out.new ≡ overwritten at (kind ∷ to_be type_size typeid) out.old }
{
    out[at] = kind;
    fields::write_u16(out, at + 1, typeid);
}

// One command at a place, with `count` ids. Answers where it ends. A struct of its fields would be taken apart at once.
pub fn put_command(
    out: &mut [u8],
    place: Place,
    kind: u8,
    typeid: u16,
    peer: u64,
    ids: &[u8],
    count: usize,
) -> usize
    requires { (length ids.now ≡ count * id_size) × ((count ≤ tracked_limit) × (place.at + command_header + length ids.now ≤ length out.old)) }
    ensures out_after { out.new ≡ overwritten place.at (command_bytes (record { kind = kind; type_id = typeid; batch = place.batch; peer = peer; ids = ids_in ids.now })) out.old }
    ensures value { result ≡ place.at + command_header + length ids.now }
{
    let at = place.at;
    put_kind(out, at, kind, typeid);
    fields::write_u16(out, at + 3, place.batch);
    fields::write_u64(out, at + 5, peer);
    fields::write_u32(out, at + 13, count as u32);
    spans::moving::overwrite(out, at + COMMAND_HEADER, ids);
    at + COMMAND_HEADER + ids.len()
}

// A list of `count` ids as one batch, in requests of at most 400. Answers where they end.
pub fn put_requests(
    out: &mut [u8],
    place: Place,
    typeid: u16,
    peer: u64,
    ids: &[u8],
    count: usize,
) -> usize
    requires { (length ids.now ≡ count * id_size) × ((count ≤ tracked_limit) × (place.at + length (all_command_bytes (commands_of place.batch (request typeid peer (ids_in ids.now)))) ≤ length out.old)) }
    ensures out_after { out.new ≡ overwritten place.at (all_command_bytes (commands_of place.batch (request typeid peer (ids_in ids.now)))) out.old }
    ensures value { result ≡ place.at + length (all_command_bytes (commands_of place.batch (request typeid peer (ids_in ids.now)))) }
{
    let mut end = place.at;
    let mut done = 0;
    let mut left = count;
    // No library's runs of a slice: they divide, and here ids are counted off.
    while 0 < left {
        let next = crate::chunk::next_count(left);
        let run = crate::chunk::next_chunk(ids, done, next);
        let here = Place { at: end, ..place };
        end = put_command(out, here, REQUEST, typeid, peer, run, next);
        done += run.len();
        left -= next;
    }
    end
}
