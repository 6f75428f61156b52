// The numbers that the program `keeper` prints, in a row.
//
// `put_row` writes `row` of specs/Row.antt: numbers parted by one space, then a line feed.
ghost use Rattle.std.specs.Prelude.{◌≡◌, ◌+◌, ◌*◌, ◌≤◌, length};
ghost use Rattle.fields.specs.Overwrite.{overwritten};
ghost use Rattle.keeper_lines.specs.Row.{digits_within, number_then, row};

// Writes n with its low `most` digits at most, the high ones first. By hand: no writer of the library puts them at a place of a
// slice that it is lent.
fn put_digits(out: &mut [u8], at: usize, n: u64, most: usize) -> usize
    requires { at + most ≤ length out.old }
    ensures out_after { out.new ≡ overwritten at (digits_within most n) out.old }
    ensures value { result ≡ at + length (digits_within most n) }
{
    if most < 1 {
        return at;
    }
    if n < 10 {
        out[at] = (48 + n) as u8;
        return at + 1;
    }
    let end = put_digits(out, at, n / 10, most - 1);
    out[end] = (48 + n % 10) as u8;
    end + 1
}

// A number and the byte that ends it.
fn put_number(out: &mut [u8], at: usize, n: u64, mark: u8) -> usize
    requires { at + 21 ≤ length out.old }
    ensures out_after { out.new ≡ overwritten at (number_then mark n) out.old }
    ensures value { result ≡ at + length (number_then mark n) }
{
    let end = put_digits(out, at, n, 20);
    out[end] = mark;
    end + 1
}

// A row of numbers from index `at` on. Gives the index behind it.
pub fn put_row(out: &mut [u8], at: usize, numbers: &[u64]) -> usize
    requires { at + length numbers.now * 21 ≤ length out.old }
    ensures out_after { out.new ≡ overwritten at (row numbers.now) out.old }
    ensures value { result ≡ at + length (row numbers.now) }
{
    let Some((last, others)) = numbers.split_last() else {
        return at;
    };
    let mut end = at;
    for n in others {
        end = put_number(out, end, *n, b' ');
    }
    put_number(out, end, *last, b'\n')
}
