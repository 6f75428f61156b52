// What a call shows of the node.
ghost use Rattle.fields.specs.Facts.{Bytes};

use lists::view::View;

// The chain's height, the outbound peers and the view.
#[derive(Clone, Copy)]
pub struct Shown<'a> {
    pub height: u32,
    pub peers: &'a [u8],
    pub view: View<'a>,
    ghost known: { Bytes peers.now },
}
