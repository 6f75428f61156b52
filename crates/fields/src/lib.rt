// Numbers of 1 to 8 bytes in a byte slice, the high byte first.
//
// Reading equals `from_be`, writing is `overwritten` with `to_be`. The crate's specs/ also hold what every other crate
// shares: the order of byte lists, tables of entries of any width, filters and the plain sort. A write touches its own
// bytes of the slice that it is lent. Either costs one load or store where the width is known.
#![tactic(auto)]

ghost use Rattle.std.specs.Prelude.{◌≡◌, ◌+◌, ◌*◌, ◌^◌, ◌≤◌, ◌<◌, length, take, drop};
ghost use Rattle.fields.specs.Number.{from_be, to_be, to_le};
ghost use Rattle.fields.specs.Overwrite.{overwritten};

// The number in `width` bytes from `at` on.
pub fn read(s: &[u8], at: usize, width: usize) -> u64
    requires { (width ≤ 8) × (at + width ≤ length s.now) }
    ensures { (result ≡ from_be (take width (drop at s.now))) × (result < 256 ^ width) }
{
    let mut v: u64 = 0;
    for i in 0..width {
        let byte: u64 = s[at + i].into();
        v = v * 256 + byte;
    }
    v
}

// The low `width` bytes of n written from `at` on. Here and below bytes are taken off by mask and shift: what writes a command
// divides nothing (F-4), and the library's `to_be_bytes` is a row of quotients.
pub fn write(s: &mut [u8], at: usize, width: usize, n: u64)
    requires { at + width ≤ length s.old }
    ensures { s.new ≡ overwritten at (to_be width n) s.old }
{
    let mut v = n;
    for j in (0..width).rev() {
        s[at + j] = (v & 255) as u8;
        v = v >> 8;
    }
}

// A byte as a number of 64 bits.
fn wide(x: u8) -> u64
    ensures { (result ≡ x) × (result < 256) }
{
    x.into()
}

// Two bytes. Four are a sum of these: of the ways to write such a sum, the one that becomes a single load wherever it is
// inlined. No `from_be_bytes` here and below: the test of the source follows every path that what writes a command leads to
// (F-4), and the library's lead out of the repository.
fn pair(s: &[u8], at: usize) -> u64
    requires { at + 2 ≤ length s.now }
    ensures { (result ≡ from_be (take 2 (drop at s.now))) × (result < 65536) }
{
    wide(s[at]) * 256 + wide(s[at + 1])
}

// The number in 2 bytes. Each width has a function of its own, here and where a number is written: they are a line each, and a
// trait over widths would be longer.
pub fn read_u16(s: &[u8], at: usize) -> u16
    requires { at + 2 ≤ length s.now }
    ensures { result ≡ from_be (take 2 (drop at s.now)) }
{
    pair(s, at) as u16
}

// The number in 4 bytes.
pub fn read_u32(s: &[u8], at: usize) -> u32
    requires { at + 4 ≤ length s.now }
    ensures { result ≡ from_be (take 4 (drop at s.now)) }
{
    (pair(s, at) * 65536 + pair(s, at + 2)) as u32
}

// Eight bytes are read and written the low byte first, as memory holds a number, and turned round. LLVM makes one load or
// store and one swap of that before it inlines; bytes summed up the high one first become a load only in the machine
// code, and until then they weigh on every function that reads a word.
fn low_pair(s: &[u8], at: usize) -> u64
    requires { at + 2 ≤ length s.now }
    ensures { (to_le 2 result ≡ take 2 (drop at s.now)) × (result < 65536) }
{
    wide(s[at + 1]) * 256 + wide(s[at])
}

// The number whose bytes these eight are, the low byte first.
fn read_low_first(s: &[u8], at: usize) -> u64
    requires { at + 8 ≤ length s.now }
    ensures { to_le 8 result ≡ take 8 (drop at s.now) }
{
    low_pair(s, at + 6) * 281474976710656
        + low_pair(s, at + 4) * 4294967296
        + low_pair(s, at + 2) * 65536
        + low_pair(s, at)
}

// The number in 8 bytes.
pub fn read_u64(s: &[u8], at: usize) -> u64
    requires { at + 8 ≤ length s.now }
    ensures { result ≡ from_be (take 8 (drop at s.now)) }
{
    turned(read_low_first(s, at))
}

// A number in 2 bytes.
pub fn write_u16(s: &mut [u8], at: usize, n: u16)
    requires { at + 2 ≤ length s.old }
    ensures { s.new ≡ overwritten at (to_be 2 n) s.old }
{
    write(s, at, 2, n.into())
}

// A number in 4 bytes.
pub fn write_u32(s: &mut [u8], at: usize, n: u32)
    requires { at + 4 ≤ length s.old }
    ensures { s.new ≡ overwritten at (to_be 4 n) s.old }
{
    write(s, at, 4, n.into())
}

// The bytes of n written from `at` on, the low byte first.
fn write_low_first(s: &mut [u8], at: usize, n: u64)
    requires { at + 8 ≤ length s.old }
    ensures { s.new ≡ overwritten at (to_le 8 n) s.old }
{
    let mut rest = n;
    for j in 0..8 {
        s[at + j] = (rest & 255) as u8;
        rest = rest >> 8;
    }
}

// The number with the bytes of n in the other order, by mask and shift as all that writes a command.
fn turned(n: u64) -> u64
    ensures { result ≡ from_be (to_le 8 n) }
{
    let mut high: u64 = 0;
    let mut low = n;
    for i in 0..8usize {
        high = high * 256 + (low & 255);
        low = low >> 8;
    }
    high
}

// A number in 8 bytes.
pub fn write_u64(s: &mut [u8], at: usize, n: u64)
    requires { at + 8 ≤ length s.old }
    ensures { s.new ≡ overwritten at (to_be 8 n) s.old }
{
    write_low_first(s, at, turned(n))
}
