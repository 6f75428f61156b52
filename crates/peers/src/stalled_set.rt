// The stalled set by value: up to 256 peers, with a count. An array and no `Vec`: the core has no heap.
ghost use Rattle.std.specs.Prelude.{◌≡◌, ◌≤◌, length};

#[derive(Clone, Copy)]
pub struct Stalled {
    pub peers: [u64; 256],
    pub count: usize,
    ghost few: { count ≤ 256 },
}

// The same as the state area holds it: 256 places of 8 bytes, `count` of them used.
#[derive(Clone, Copy)]
pub struct StalledPlaces<'a> {
    pub bytes: &'a [u8],
    pub count: usize,
    ghost whole: { length bytes.now ≡ 2048 },
    ghost few: { count ≤ 256 },
}
