// What the lists of one peer have in common.
ghost use Rattle.fields.specs.Facts.{Bytes};

use lists::pairs::Pairs;

// What each list goes by, and the pairs by type: their places, and their ids in that order.
#[derive(Clone, Copy)]
pub struct Asks<'a> {
    pub most: usize,
    // rule 3's, which each list asks
    pub gate: bool,
    pub clock: u64,
    pub peer: u64,
    pub stored: Pairs<'a>,
    pub pairs: &'a [u8],
    pub places: &'a [u16],
    pub ids: &'a [u8],
    ghost bytes: { Bytes pairs.now },
}
