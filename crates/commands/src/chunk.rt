// A list of ids in runs of at most 400, counted off as they are cut: nothing is divided here.
ghost use Rattle.std.specs.Prelude.{◌≡◌, ◌+◌, ◌*◌, ◌≤◌, min, length, take, drop};
ghost use Rattle.model.specs.Protocol.{request_size};
ghost use Rattle.model.specs.Layout.{id_size};

use model::MAX_MODIFIER_REQUEST_IDS;
use model::layout::ID_SIZE;

// How many ids the next request carries, with `left` to be cut still.
pub fn next_count(left: usize) -> usize
    ensures { result ≡ min request_size left }
{
    left.min(MAX_MODIFIER_REQUEST_IDS)
}

// The next `count` ids from byte `at` on, as a part of the caller's bytes.
pub fn next_chunk(ids: &[u8], at: usize, count: usize) -> &[u8]
    requires { at + count * id_size ≤ length ids.now }
    ensures { result.now ≡ take (count * id_size) (drop at ids.now) }
{
    let end = at + count * ID_SIZE;
    &ids[at..end]
}
