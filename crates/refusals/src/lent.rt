// What a call is lent beside its numbers.
ghost use Rattle.fields.specs.Facts.{Bytes};

// The five lists of a call. The ghost fields say that they are bytes, which a slice in a struct does not say by itself.
#[derive(Clone, Copy)]
pub struct Lists<'a> {
    pub ids: &'a [u8],
    pub continuation: &'a [u8],
    pub stored: &'a [u8],
    pub peers: &'a [u8],
    pub view: &'a [u8],
    ghost ids_bytes: { Bytes ids.now },
    ghost continuation_bytes: { Bytes continuation.now },
    ghost stored_bytes: { Bytes stored.now },
    ghost peers_bytes: { Bytes peers.now },
    ghost view_bytes: { Bytes view.now },
}
