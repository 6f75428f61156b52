// The numbers of a line, as wide as the exported entries take them. The shape of a line has bounded them, so that each fits.
// `of_step` and `of_opening` name the order of a line. A generic function in place of `byte`, `quarter` and `half` would be given the greatest number at each call.

// The numbers of a step, in the order of its line.
#[derive(Clone, Copy)]
pub struct Step {
    pub kind: u8,
    pub clock: u64,
    pub gate: u8,
    pub height: u32,
    pub peer: u64,
    pub typeid: u16,
    pub fork: u32,
    pub parsed: u8,
    pub hastip: u8,
    pub tip: u32,
}

// The numbers of an opening, in the order of its line.
#[derive(Clone, Copy)]
pub struct Opening {
    pub clock: u64,
    pub height: u32,
    pub timeout: u32,
    pub checks: u32,
    pub interval: u32,
    pub stall: u32,
}

// A number as a byte.
pub fn byte(n: u64) -> u8 {
    u8::try_from(n).unwrap_or(u8::MAX)
}

// A number of 16 bits.
pub fn quarter(n: u64) -> u16 {
    u16::try_from(n).unwrap_or(u16::MAX)
}

// A number of 32 bits.
pub fn half(n: u64) -> u32 {
    u32::try_from(n).unwrap_or(u32::MAX)
}

// The numbers of a step's line.
pub fn of_step(numbers: &[u64; 17]) -> Step {
    Step {
        kind: byte(numbers[0]),
        clock: numbers[1],
        gate: byte(numbers[2]),
        height: half(numbers[3]),
        peer: numbers[7],
        typeid: quarter(numbers[8]),
        fork: half(numbers[9]),
        parsed: byte(numbers[10]),
        hastip: byte(numbers[11]),
        tip: half(numbers[12]),
    }
}

// The numbers of an opening's line.
pub fn of_opening(numbers: &[u64; 17]) -> Opening {
    Opening {
        clock: numbers[0],
        height: half(numbers[1]),
        timeout: half(numbers[2]),
        checks: half(numbers[3]),
        interval: half(numbers[4]),
        stall: half(numbers[5]),
    }
}
