// The leaves for a caller in Rust, to be timed.
//
// Exported functions ask nothing: they test what a leaf requires and answer a neutral value where it does not hold. They
// have no contracts, since they are for timing and outside the core.
#![tactic(auto)]

ghost use Rattle.std.specs.Prelude.{◌≡◌, ◌+◌, ◌≤◌, true, length};

// A whole slice copied over one as long.
#[unsafe(no_mangle)]
pub extern "C" fn leaf_copy(src: &[u8], dst: &mut [u8]) -> bool {
    let fits = src.len() == dst.len();
    if fits {
        spans::copying::copy(src, dst);
    }
    fits
}

// The first `count` bytes copied.
#[unsafe(no_mangle)]
pub extern "C" fn leaf_copy_prefix(src: &[u8], count: usize, dst: &mut [u8]) -> bool {
    let fits = count <= src.len() && count <= dst.len();
    if fits {
        spans::copying::copy_prefix(src, count, dst);
    }
    fits
}

#[repr(C)]
#[derive(Clone, Copy)]
pub struct Area {
    pub bytes: [u8; 65536],
}

// A copy of an area to work on.
#[unsafe(no_mangle)]
pub extern "C" fn leaf_scratch(src: &[u8]) -> Area {
    if src.len() != 65536 {
        return Area {
            bytes: [0u8; 65536],
        };
    }
    Area {
        bytes: spans::copying::scratch(src),
    }
}

// Whether all bytes are zero.
#[unsafe(no_mangle)]
pub extern "C" fn leaf_is_zero(s: &[u8]) -> bool {
    spans::copying::is_zero(s)
}

// All bytes made zero.
#[unsafe(no_mangle)]
pub extern "C" fn leaf_fill_zero(s: &mut [u8]) {
    spans::copying::fill_zero(s)
}

// Whether s has `size` bytes from `at` on.
fn has(s: &[u8], at: usize, size: usize) -> bool
    ensures { result ≡ true → at + size ≤ length s.now }
{
    size <= s.len() && at <= s.len() - size
}

// Whether one run of bytes comes before another.
#[unsafe(no_mangle)]
pub extern "C" fn leaf_run_before(s: &[u8], p: usize, t: &[u8], q: usize, size: usize) -> bool {
    has(s, p, size) && has(t, q, size) && keys::run_before(s, p, t, q, size)
}

// Whether two runs of bytes are the same.
#[unsafe(no_mangle)]
pub extern "C" fn leaf_run_same(s: &[u8], p: usize, t: &[u8], q: usize, size: usize) -> bool {
    has(s, p, size) && has(t, q, size) && keys::run_same(s, p, t, q, size)
}

// How many ids, 32 bytes each, come before the one that follows. Two places in one slice, as the core compares them; the last
// 32 bytes are an id, and what is too short for one stands in front.
#[unsafe(no_mangle)]
pub extern "C" fn leaf_ids_before(ids: &[u8]) -> usize {
    let mut count: usize = 0;
    for i in 1..ids.len() / 32 {
        let next = ids.len() - i * 32;
        if keys::run_before(ids, next - 32, ids, next, 32) {
            count += 1;
        }
    }
    count
}

// How many are the same as the one that follows.
#[unsafe(no_mangle)]
pub extern "C" fn leaf_ids_same(ids: &[u8]) -> usize {
    let mut count: usize = 0;
    for i in 1..ids.len() / 32 {
        let next = ids.len() - i * 32;
        if keys::run_same(ids, next - 32, ids, next, 32) {
            count += 1;
        }
    }
    count
}

// All words of s together, read one by one, the last one first.
#[unsafe(no_mangle)]
pub extern "C" fn leaf_read_u64(s: &[u8]) -> u64 {
    let mut all: u64 = 0;
    for i in 1..s.len() / 8 + 1 {
        all ^= fields::read_u64(s, s.len() - i * 8);
    }
    all
}

// The narrow widths, and the writes, one at a time.
#[unsafe(no_mangle)]
pub extern "C" fn leaf_read_u16(s: &[u8; 8]) -> u16 {
    fields::read_u16(s, 0)
}

// The number in 4 bytes.
#[unsafe(no_mangle)]
pub extern "C" fn leaf_read_u32(s: &[u8; 8]) -> u32 {
    fields::read_u32(s, 0)
}

// A number in 2 bytes.
#[unsafe(no_mangle)]
pub extern "C" fn leaf_write_u16(s: &mut [u8; 8], n: u16) {
    fields::write_u16(s, 0, n)
}

// A number in 4 bytes.
#[unsafe(no_mangle)]
pub extern "C" fn leaf_write_u32(s: &mut [u8; 8], n: u32) {
    fields::write_u32(s, 0, n)
}

// A number in 8 bytes.
#[unsafe(no_mangle)]
pub extern "C" fn leaf_write_u64(s: &mut [u8; 8], n: u64) {
    fields::write_u64(s, 0, n)
}
