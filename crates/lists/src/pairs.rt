// Pairs of type and id that are stored.
ghost use Rattle.std.specs.Prelude.{◌≡◌, true};
ghost use Rattle.fields.specs.Facts.{Bytes};
ghost use Rattle.model.specs.Lists.{pairs_fit};

// Whole pairs, at most 1,024, strictly rising.
#[derive(Clone, Copy)]
pub struct Pairs<'a> {
    pub bytes: &'a [u8],
    ghost fit: { pairs_fit bytes.now ≡ true },
    ghost known: { Bytes bytes.now },
}
