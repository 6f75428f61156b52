// The words of a line in the text form of host/fixed: numbers in decimal, bytes in hex.
//
// A shape has a letter for each word that a line must have behind its first: `1`, `2`, `4` or `8` for a number of so many
// bytes, `p` for a number of 8 bytes or `-`, `x` for bytes or `-`, and `s` for a word that is read past. A line of another
// shape is refused.
//
// A call has five words of bytes at most, each with the place where it ends.
ghost use Rattle.std.specs.Prelude.{◌≤◌, ◌<◌, length};

use keeper_lines::numerals::{read_decimal, read_hex};

// The greatest number that a letter stands for.
fn most(letter: u8) -> u64
    ensures { 9 ≤ result }
{
    match letter {
        b'1' => u64::from(u8::MAX),
        b'2' => u64::from(u16::MAX),
        b'4' => u64::from(u32::MAX),
        _ => u64::MAX,
    }
}

// Whether a word is `-`, which stands for nothing.
fn is_nothing(word: &[u8]) -> bool {
    matches!(word, b"-")
}

// What the words of a line say: a number at the place of each word that is one, and bytes.
#[derive(Clone, Copy)]
pub struct Words {
    pub numbers: [u64; 17],
    // the bytes of the words of hex, one behind another
    bytes: [u8; 131072],
    // where the last five of them end; of a line with fewer the first ones are empty
    a: usize,
    b: usize,
    c: usize,
    d: usize,
    e: usize,
    ghost in_order: { (a ≤ b) × ((b ≤ c) × ((c ≤ d) × ((d ≤ e) × (e ≤ 131072)))) },
}

impl Words {
    // Before the first word.
    pub fn none() -> Words {
        Words {
            numbers: [0; 17],
            bytes: [0; 131072],
            a: 0,
            b: 0,
            c: 0,
            d: 0,
            e: 0,
        }
    }

    // The bytes of the last five words of hex.
    pub fn lists(&self) -> [&[u8]; 5] {
        let bytes = &self.bytes;
        [
            &bytes[..self.a],
            &bytes[self.a..self.b],
            &bytes[self.b..self.c],
            &bytes[self.c..self.d],
            &bytes[self.d..self.e],
        ]
    }

    // The bytes that a word gives in hex, behind those of the words before.
    fn read_bytes(&mut self, word: &[u8]) -> Option<()> {
        let mut end = self.e;
        if !is_nothing(word) {
            for digits in word.chunks(2) {
                let byte = read_hex(digits)?;
                if end >= self.bytes.len() {
                    return None;
                }
                self.bytes[end] = byte;
                end += 1;
            }
        }
        self.a = self.b;
        self.b = self.c;
        self.c = self.d;
        self.d = self.e;
        self.e = end;
        Some(())
    }

    // Word i: its number, or its bytes.
    fn read(&mut self, i: usize, letter: u8, word: &[u8]) -> Option<()>
        requires { i < 17 }
    {
        match letter {
            b'x' => self.read_bytes(word)?,
            b's' => {}
            b'p' if is_nothing(word) => self.numbers[i] = 0,
            _ => self.numbers[i] = read_decimal(word, most(letter))?,
        }
        Some(())
    }

    // Forgets what was read. Bytes are read only where they were written, so that they stay.
    fn forget(&mut self) {
        self.numbers = [0; 17];
        self.a = 0;
        self.b = 0;
        self.c = 0;
        self.d = 0;
        self.e = 0;
    }

    // The words of a line behind its first, which have to be as many as the shape has letters, in place of what was read before.
    // One room serves all lines: one for each would be cleared and moved at each.
    pub fn read_line(&mut self, line: &[u8], shape: &[u8]) -> Option<()>
        requires { length shape.now ≤ 17 }
    {
        self.forget();
        let mut texts = line.split(|byte| *byte == b' ').skip(1);
        for (i, letter) in shape.iter().enumerate() {
            self.read(i, *letter, texts.next()?)?;
        }
        match texts.next() {
            Some(_) => None,
            None => Some(()),
        }
    }
}

// The same by value, of a line alone.
pub fn read_words(line: &[u8], shape: &[u8]) -> Option<Words>
    requires { length shape.now ≤ 17 }
{
    let mut words = Words::none();
    words.read_line(line, shape)?;
    Some(words)
}
