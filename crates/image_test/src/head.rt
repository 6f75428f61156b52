// Number 2 of the refusals, of the header alone: what can be told before a table is read.
//
// The parts stand in the definition's order and keep its names. A few loads and comparisons, the same for every image.
//
// The start byte by byte, as the definition lists it; the two modes with a sync peer by their names.
ghost use Rattle.std.specs.Prelude.{◌≡◌, ◌&&◌, ◌||◌, [], ◌∷◌, ◌≤◌, eqb, leb, length, take};
ghost use Rattle.fields.specs.Order.{same};
ghost use Rattle.model.specs.State.{has_sync_peer};
ghost use Rattle.model.specs.Image as image;
ghost use Rattle.model.specs.Image.{field, mode_of};
ghost use Rattle.image_test.specs.Head.{head_fits};

use image::mode::{ENDED, SYNCED, SYNCING};
use model::layout::NEWEST_VERSION;

// An area that holds a whole header.
#[derive(Clone, Copy)]
struct Header<'a> {
    area: &'a [u8],
    ghost whole: { 74 ≤ length area.now },
}

impl Header<'_> {
    // Mark, version and mode. Version 1 is read too (F-6).
    #[tactic(auto, unfolding(model::specs::Image::version_fits))]
    fn starts_well(self) -> bool
        ensures { result ≡ same (take 3 self.entry.area.now) (69 ∷ 68 ∷ 84 ∷ []) && (image.version_fits self.entry.area.now && leb (image.mode_byte self.entry.area.now) 4) }
    {
        let area = self.area;
        let version = fields::read_u16(area, 3);
        ((area[0] == 69) & ((area[1] == 68) & (area[2] == 84)))
            & (((version == NEWEST_VERSION) | (version == 1)) & (area[5] <= ENDED))
    }

    // Whether both marks are 0 or 1, and 0 outside syncing.
    #[tactic(auto, using(crate::proofs::HeadLaws::syncing_byte, image::proofs::WrittenLaws::bit_byte), unfolding(model::specs::Image::marks_fit))]
    fn marks_fit(self) -> bool
        ensures { result ≡ image.marks_fit self.entry.area.now }
    {
        let most = u8::from(self.area[5] == SYNCING);
        (self.area[6] <= most) & (self.area[7] <= most)
    }

    // Whether the tables have room for as many as the counts say.
    #[tactic(auto, unfolding(model::specs::Image::counts_fit))]
    fn counts_fit(self) -> bool
        ensures { result ≡ image.counts_fit self.entry.area.now }
    {
        let stalled = fields::read_u16(self.area, 68);
        let pending = u32::from(fields::read_u16(self.area, 70));
        let evicted = u32::from(fields::read_u16(self.area, 72));
        (stalled <= 256) & (pending + evicted <= 1024)
    }

    // Whether last progress and last send are not after the last clock.
    #[tactic(auto, unfolding(model::specs::Image::clocks_fit))]
    fn clocks_fit(self) -> bool
        ensures { result ≡ image.clocks_fit self.entry.area.now }
    {
        let clock = fields::read_u64(self.area, 8);
        let progress = fields::read_u64(self.area, 32);
        let send = fields::read_u64(self.area, 40);
        (progress <= clock) & (send <= clock)
    }

    // The sync peer is zero in the modes that have none.
    #[tactic(auto, using(crate::proofs::HeadLaws::peer_byte))]
    fn peer_fits(self) -> bool
        ensures { result ≡ (has_sync_peer (mode_of (image.mode_byte self.entry.area.now)) || eqb (field 48 8 self.entry.area.now) 0) }
    {
        let peer = fields::read_u64(self.area, 48);
        ((self.area[5] == SYNCING) | (self.area[5] == SYNCED)) | (peer == 0)
    }
}

// Whether the header is one of a well formed image.
#[tactic(auto, using(crate::proofs::HeadLaws::parts_fit))]
pub fn head_fits(area: &[u8]) -> bool
    requires { 74 ≤ length area.now }
    ensures { result ≡ head_fits area.now }
{
    let header = Header { area };
    let modes = header.starts_well() & header.marks_fit();
    modes & (header.counts_fit() & (header.clocks_fit() & header.peer_fits()))
}
