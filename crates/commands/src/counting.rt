// How many commands, and how many ids, stand one behind another.
ghost use Rattle.std.specs.Prelude.{◌≡◌, length};
ghost use Rattle.model.specs.Commands.{commands_in};
ghost use Rattle.model.specs.Lists.{ids_in};

use model::layout::{COMMAND_HEADER, ID_SIZE};

// Any bytes are answered: what is left at the end, if it is too short for a header, counts as one.
pub fn count_commands(bytes: &[u8]) -> usize
    ensures { result ≡ length (commands_in bytes.now) }
{
    let mut count = 0;
    let mut at = 0;
    // No `for`: each command's own header says how far it reaches.
    while at < bytes.len() {
        count += 1;
        if bytes.len() - at < COMMAND_HEADER {
            return count;
        }
        // No `From`: a `usize` may be shorter in Rust.
        let ids = fields::read_u32(bytes, at + 13) as usize;
        at = at + COMMAND_HEADER + ids * ID_SIZE;
    }
    count
}

// Ids, one by one; bytes left at the end that are no whole id count for none.
pub fn count_ids(ids: &[u8]) -> usize
    ensures { result ≡ length (ids_in ids.now) }
{
    let mut whole = 0;
    let mut left = ids.len();
    // Counted off, since the library's ways to count runs of a slice divide.
    while ID_SIZE <= left {
        left -= ID_SIZE;
        whole += 1;
    }
    whole
}
