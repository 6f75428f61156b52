// Fields of a line, one behind another. A field ends at a space or with the line.
//
// By places, since the contract says where the next field begins.
ghost use Rattle.std.specs.Prelude.{◌≡◌, ◌+◌, ◌≤◌, length, MatchOption};
ghost use Rattle.keeper_lines.specs.Number.{decimal, hex_byte};
ghost use Rattle.keeper_lines.specs.Reading.{field_of, field_behind, end_behind};

// The field behind the space at index `space`, and where it ends. Behind the line's end there is none.
fn field_behind(line: &[u8], space: usize) -> Option<(&[u8], usize)>
    ensures { MatchOption result (length line.now ≤ space) (λ r. (r.0.now ≡ field_behind space line.now) × (r.1 ≡ end_behind space line.now)) }
{
    if line.len() <= space {
        return None;
    }
    let from = space + 1;
    let end = input::find(line, from, b' ');
    Some((&line[from..end], end))
}

// That field as a decimal number of at most `most`, and where it ends.
pub fn decimal_behind(line: &[u8], space: usize, most: u64) -> Option<(u64, usize)>
    requires { 9 ≤ most }
    ensures { result ≡ field_of (decimal (most + 1) (field_behind space line.now)) (end_behind space line.now) }
{
    let (field, end) = field_behind(line, space)?;
    let number = crate::numerals::read_decimal(field, most)?;
    Some((number, end))
}

// That field as a byte in hex, and where it ends.
pub fn hex_behind(line: &[u8], space: usize) -> Option<(u8, usize)>
    ensures { result ≡ field_of (hex_byte (field_behind space line.now)) (end_behind space line.now) }
{
    let (field, end) = field_behind(line, space)?;
    let byte = crate::numerals::read_hex(field)?;
    Some((byte, end))
}
