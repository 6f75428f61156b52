// What a call is lent: whether its lists are as they should be, exactly.
//
// Numbers 6 and 7 of the refusals. Any bytes are answered, in one pass over them; a list that may stand in any order
// is judged by its length alone.
//
// Kinds are any bytes, as C gives them.
ghost use Rattle.std.specs.Prelude.{◌≡◌, not, ◌&&◌, ◌||◌, ◌*◌, ◌^◌, ◌<◌, eqb, length};
ghost use Rattle.model.specs.Lists.{list_fits, ids_fit, continuation_fits, pairs_fit, peers_fit};

use crate::lent::Lists;
use keys::Entries;
use model::MAX_MODIFIER_REQUEST_IDS;
use model::layout::{ID_SIZE, PAIR_SIZE, PEER_SIZE, TRACKED_LIMIT};
use plan::kind::NEEDED_MODIFIER;

// Whole entries, at most so many.
fn list_fits(list: &[u8], size: usize, most: usize) -> bool
    requires { (0 < size) × (most * size < 2 ^ 32) }
    ensures { result ≡ list_fits size most list.now }
{
    (list.len() % size == 0) & (list.len() <= most * size)
}

// Ids: at most 1,024. These three only name a bound, as the definitions do.
pub fn ids_fit(ids: &[u8]) -> bool
    ensures { result ≡ ids_fit ids.now }
{
    list_fits(ids, ID_SIZE, TRACKED_LIMIT)
}

// Continuation ids: at most 400.
pub fn continuation_fits(ids: &[u8]) -> bool
    ensures { result ≡ continuation_fits ids.now }
{
    list_fits(ids, ID_SIZE, MAX_MODIFIER_REQUEST_IDS)
}

// Stored pairs: at most 1,024, strictly rising.
pub fn pairs_fit(stored: &[u8]) -> bool
    ensures { result ≡ pairs_fit stored.now }
{
    // A long list is refused unread.
    if !list_fits(stored, PAIR_SIZE, TRACKED_LIMIT) {
        return false;
    }
    let pairs = Entries {
        bytes: stored,
        width: PAIR_SIZE,
        count: stored.len() / PAIR_SIZE,
    };
    keys::rising::is_rising(pairs, PAIR_SIZE)
}

// Peers: at most 128.
pub fn peers_fit(peers: &[u8]) -> bool
    ensures { result ≡ peers_fit peers.now }
{
    list_fits(peers, PEER_SIZE, 128)
}

// The lists of number 6. A needed modifier, kind 3, is one id.
pub fn lists_fit(kind: u8, lists: Lists) -> bool
    ensures { let given = lists.entry in result ≡ (ids_fit given.ids.now && (not (eqb kind 3) || eqb (length given.ids.now) 32)) && (continuation_fits given.continuation.now && pairs_fit given.stored.now) }
{
    let one = (kind != NEEDED_MODIFIER) | (lists.ids.len() == ID_SIZE);
    (ids_fit(lists.ids) & one) & (continuation_fits(lists.continuation) & pairs_fit(lists.stored))
}
