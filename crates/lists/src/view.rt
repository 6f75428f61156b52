// A view of the chain: a first height, and a row for it and each height after it.
ghost use Rattle.std.specs.Prelude.{◌≡◌, true};
ghost use Rattle.fields.specs.Facts.{Bytes};
ghost use Rattle.model.specs.Lists.{view_fits};

// Whole rows that fit, for heights that exist.
#[derive(Clone, Copy)]
pub struct View<'a> {
    pub bytes: &'a [u8],
    ghost fit: { view_fits bytes.now ≡ true },
    ghost known: { Bytes bytes.now },
}
