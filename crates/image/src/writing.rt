// The header of the state area, written from its value.
//
// `write_head` writes the 74 bytes that `head_bytes` of image/specs/Heads.antt gives, and no other.
//
// The area is written, so that it holds a header is a clause.
ghost use Rattle.std.specs.Prelude.{◌≡◌, [], ◌∷◌, ◌≤◌, length};
ghost use Rattle.fields.specs.Overwrite.{overwritten};
ghost use Rattle.model.specs.Image.{bit};
ghost use Rattle.image.specs.Heads.{head_bytes};

use crate::head::Head;
use model::layout::NEWEST_VERSION;

// Mark, version, mode and the two marks, byte by byte: the compiler makes one store of them.
fn write_start(area: &mut [u8], mode: u8, used: bool, sent: bool)
    requires { 8 ≤ length area.old }
    ensures { area.new ≡ overwritten 0 (69 ∷ 68 ∷ 84 ∷ 0 ∷ 2 ∷ mode ∷ bit used ∷ bit sent ∷ []) area.old }
{
    area[0] = 69;
    area[1] = 68;
    area[2] = 84;
    area[3] = 0;
    area[4] = NEWEST_VERSION as u8;
    area[5] = mode;
    area[6] = u8::from(used);
    area[7] = u8::from(sent);
}

// The whole header.
pub fn write_head(area: &mut [u8], head: Head)
    requires { 74 ≤ length area.old }
    ensures { area.new ≡ overwritten 0 (head_bytes head) area.old }
{
    write_start(area, head.mode, head.used, head.sent);
    fields::write_u64(area, 8, head.clock);
    fields::write_u32(area, 16, head.settings.timeout);
    fields::write_u32(area, 20, head.settings.checks);
    fields::write_u32(area, 24, head.settings.interval);
    fields::write_u32(area, 28, head.settings.stall);
    fields::write_u64(area, 32, head.progress);
    fields::write_u64(area, 40, head.send.last);
    fields::write_u64(area, 48, head.peer);
    fields::write_u32(area, 56, head.send.sends);
    fields::write_u32(area, 60, head.downloaded);
    fields::write_u32(area, 64, head.tip);
    fields::write(area, 68, 2, head.stalled as u64);
    fields::write(area, 70, 2, head.pending as u64);
    fields::write(area, 72, 2, head.evicted as u64);
}
