// Ids, one behind another.
ghost use Rattle.std.specs.Prelude.{◌≡◌, ◌%◌, ◌≤◌, length};
ghost use Rattle.fields.specs.Facts.{Bytes};
ghost use Rattle.model.specs.Layout.{id_list_size, id_size};

// Whole ids, at most 1,024.
#[derive(Clone, Copy)]
pub struct Ids<'a> {
    pub bytes: &'a [u8],
    ghost whole: { length bytes.now % id_size ≡ 0 },
    ghost few: { length bytes.now ≤ id_list_size },
    ghost known: { Bytes bytes.now },
}
