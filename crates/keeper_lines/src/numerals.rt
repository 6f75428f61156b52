// Numbers as a line writes them: decimal, and a byte in hex.
//
// All bytes are taken, or nothing: `read_decimal` equals `decimal` of specs/Number.antt and `read_hex` equals `hex_byte`, on
// every byte list. By hand: `parse` takes a sign, and text.
ghost use Rattle.std.specs.Prelude.{◌≡◌, ◌+◌, ◌≤◌};
ghost use Rattle.keeper_lines.specs.Number.{decimal, hex_byte};

// All of s as a decimal number of at most `most`. The value never passes `most`, so no number is too long.
pub fn read_decimal(s: &[u8], most: u64) -> Option<u64>
    requires { 9 ≤ most }
    ensures { result ≡ decimal (most + 1) s.now }
{
    if s.is_empty() {
        return None;
    }
    let mut n = 0;
    for byte in s {
        let digit = match *byte {
            b'0'..=b'9' => u64::from(*byte - b'0'),
            _ => return None,
        };
        if (most - digit) / 10 < n {
            return None;
        }
        n = n * 10 + digit;
    }
    Some(n)
}

// All of s as a byte in hex, with digits of either case.
pub fn read_hex(s: &[u8]) -> Option<u8>
    ensures { result ≡ hex_byte s.now }
{
    let [high, low] = s else {
        return None;
    };
    let high = char::from(*high).to_digit(16)?;
    let low = char::from(*low).to_digit(16)?;
    Some((high * 16 + low) as u8)
}
