// The table of pending requests.
ghost use Rattle.std.specs.Prelude.{◌≡◌, true, ◌*◌, ◌≤◌, length};
ghost use Rattle.fields.specs.Facts.{Bytes};
ghost use Rattle.fields.specs.Entries.{entries, rising};
ghost use Rattle.model.specs.Layout.{id_size, record_size};
ghost use Rattle.model.specs.Protocol.{tracked_limit};

// Records at the front of some bytes, their ids rising, to be read. A table that is written changes its count too, so that
// both stay parameters there.
#[derive(Clone, Copy)]
pub struct Pending<'a> {
    pub table: &'a [u8],
    pub count: usize,
    ghost fits: { count * record_size ≤ length table.now },
    ghost few: { count ≤ tracked_limit },
    ghost known: { Bytes table.now },
    ghost rises: { rising id_size (entries record_size count table.now) ≡ true },
}
