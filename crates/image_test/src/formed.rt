// Number 2 of the refusals: whether an image is well formed, exactly.
//
// The header first, so that an area with a wrong mark costs next to nothing; then one pass over the pending ids, one over
// the stalled peers (see once), one over the pending records and one over what must be zero; in version 1 one more over the
// records' types. The first part that does not fit ends the test.
//
// Records and a count: `Counted` says that they lie within the area.
ghost use Rattle.std.specs.Prelude.{◌≡◌, ◌&&◌, map, ◌+◌, ◌-◌, ◌*◌, ◌≤◌, eqb, length, take, drop, get_or};
ghost use Rattle.fields.specs.Zero.{all_zero};
ghost use Rattle.fields.specs.Entries.{entries, entry, rising};
ghost use Rattle.model.specs.Image as image;
ghost use Rattle.model.specs.Image.{request_of, request_fits, all_fit, types_narrow, well_formed};
ghost use Rattle.settings.specs.Values.{settings_of};
ghost use Rattle.model.specs.Layout.{area_size, id_size, record_size, region_at, region_size};
ghost use Rattle.model.specs.Protocol.{tracked_limit};

use keys::Entries;
use model::layout::{
    CHECKS_AT, ID_SIZE, NEWEST_VERSION, RECORD_SIZE, REGION_AT, STALLED_AT, STAMP_AT, TYPE_AT,
};
use settings::Settings;

// Stamp and checks of record i. In branches, since they nearly always go the same way.
#[tactic(auto, using(crate::proofs::TestLaws::record_late, crate::proofs::TestLaws::record_checks))]
fn record_fits(region: &[u8], i: usize, settings: Settings, clock: u64) -> bool
    requires { i * record_size + record_size ≤ length region.now }
    ensures { result ≡ request_fits (settings_of settings) clock (request_of (entry record_size i region.now)) }
{
    let at = i * RECORD_SIZE;
    let stamp = fields::read_u64(region, at + STAMP_AT);
    if clock < stamp {
        return false;
    }
    let checks = fields::read_u32(region, at + CHECKS_AT);
    checks < settings.most_requests(fields::read_u16(region, at + TYPE_AT))
}

// All records, in one pass.
fn records_fit(region: &[u8], count: usize, settings: Settings, clock: u64) -> bool
    requires { count * record_size ≤ length region.now }
    ensures { result ≡ all_fit (settings_of settings) clock (map request_of (entries record_size count region.now)) }
{
    (0..count).all(|i| record_fits(region, i, settings, clock))
}

// Whether the high byte of record i's type is zero.
#[tactic(auto, using(crate::proofs::TestLaws::record_narrow))]
fn type_narrow(region: &[u8], i: usize) -> bool
    requires { i * record_size + record_size ≤ length region.now }
    ensures { result ≡ eqb (get_or (entry record_size i region.now) 40 0) 0 }
{
    region[i * RECORD_SIZE + TYPE_AT] == 0
}

// All records' types, in one pass.
fn types_narrow(region: &[u8], count: usize) -> bool
    requires { count * record_size ≤ length region.now }
    ensures { result ≡ types_narrow (entries record_size count region.now) }
{
    (0..count).all(|i| type_narrow(region, i))
}

// An area whose counts fit, so that its tables lie within it.
#[derive(Clone, Copy)]
struct Counted<'a> {
    area: &'a [u8],
    ghost whole: { length area.now ≡ area_size },
    ghost few_stalled: { image.stalled_count area.now ≤ 256 },
    ghost tables_fit: { image.pending_count area.now + image.evicted_count area.now ≤ tracked_limit },
}

impl Counted<'_> {
    // Whether the pending ids rise.
    fn ids_rise(self) -> bool
        ensures { result ≡ rising id_size (entries record_size (image.pending_count self.entry.area.now) (drop region_at self.entry.area.now)) }
    {
        let records = Entries {
            bytes: &self.area[REGION_AT..],
            width: RECORD_SIZE,
            count: image::head::count_at(self.area, 70),
        };
        keys::rising::is_rising(records, ID_SIZE)
    }

    // Whether every pending record of the area fits.
    fn pending_fits(self) -> bool
        ensures { let area = self.entry.area.now in result ≡ all_fit (image.settings_of area) (image.last_clock_of area) (image.pending_of area) }
    {
        let clock = fields::read_u64(self.area, 8);
        let pending = image::head::count_at(self.area, 70);
        let settings = image::head::read_settings(self.area);
        records_fit(&self.area[REGION_AT..], pending, settings, clock)
    }

    // In version 1 the high byte of each type is unused.
    fn types_fit(self) -> bool
        ensures { result ≡ image.types_fit self.entry.area.now }
    {
        let pending = image::head::count_at(self.area, 70);
        let newest = fields::read_u16(self.area, 3) == NEWEST_VERSION;
        newest || types_narrow(&self.area[REGION_AT..], pending)
    }

    // The room behind the header, the stalled places beyond the count, the region between pending and evicted.
    fn room_is_zero(self) -> bool
        ensures { let area = self.entry.area.now in result ≡ all_zero (take 438 (drop 74 area)) && (all_zero (take ((256 - image.stalled_count area) * 8) (drop (512 + image.stalled_count area * 8) area)) && all_zero (take (region_size - image.pending_count area * record_size - image.evicted_count area * id_size) (drop (region_at + image.pending_count area * record_size) area))) }
    {
        let area = self.area;
        let stalled = STALLED_AT + image::head::count_at(area, 68) * 8;
        let pending = REGION_AT + image::head::count_at(area, 70) * RECORD_SIZE;
        let evicted = 65536 - image::head::count_at(area, 72) * ID_SIZE;
        let header = spans::copying::is_zero(&area[74..512]);
        let places = spans::copying::is_zero(&area[stalled..2560]);
        let between = spans::copying::is_zero(&area[pending..evicted]);
        header & (places & between)
    }
}

// Whether an area is a well formed image.
#[tactic(auto, using(crate::proofs::TestLaws::rest_refuses))]
pub fn is_well_formed(area: &[u8]) -> bool
    requires { length area.now ≡ area_size }
    ensures { result ≡ well_formed area.now }
{
    if !crate::head::head_fits(area) {
        return false;
    }
    let counted = Counted { area };
    counted.ids_rise()
        && crate::once::stalled_once(area)
        && counted.pending_fits()
        && counted.types_fit()
        && counted.room_is_zero()
}
