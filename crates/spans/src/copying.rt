// Copies, zero scans and fills of whole areas at memory speed.
//
// A step that may still be refused works on a copy of the state area and copies back what finished: most of its cost is here.
//
// Of two slices the first so many bytes: a part of each would be checked twice. A copy is a loop and no `copy_from_slice`, which
// allows for two slices that overlap: the archive would want memmove.
ghost use Rattle.std.specs.Prelude.{◌≡◌, ◌++◌, ◌+◌, ◌≤◌, length, take, drop};
ghost use Rattle.fields.specs.Zero.{zeros, all_zero};

// Copies all of src over dst, which is as long.
pub fn copy(src: &[u8], dst: &mut [u8])
    requires { length src.now ≡ length dst.old }
    ensures { dst.new ≡ src.now }
{
    for i in 0..src.len() {
        dst[i] = src[i];
    }
}

// Copies the first `count` bytes of src over those of dst.
pub fn copy_prefix(src: &[u8], count: usize, dst: &mut [u8])
    requires { (count ≤ length src.now) × (count ≤ length dst.old) }
    ensures { dst.new ≡ take count src.now ++ drop count dst.old }
{
    copy(&src[..count], &mut dst[..count]);
}

// A copy of an area of 65,536 bytes to work on. The part says its length to the compiler, which then makes one copy of it.
pub fn scratch(src: &[u8]) -> [u8; 65536]
    requires { length src.now ≡ 65536 }
    ensures { result ≡ src.now }
{
    let mut area = [0u8; 65536];
    copy_prefix(src, 65536, &mut area);
    area
}

// Whether all bytes are zero. No early exit: every byte is read, many at a time.
pub fn is_zero(s: &[u8]) -> bool
    ensures { result ≡ all_zero s.now }
{
    let mut ok = true;
    for b in s {
        ok &= *b == 0;
    }
    ok
}

// Makes all bytes zero.
pub fn fill_zero(s: &mut [u8])
    ensures { s.new ≡ zeros (length s.old) }
{
    s.fill(0);
}
