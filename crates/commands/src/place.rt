// Where the next command goes.

// The place behind the commands that are written, and the number of the next batch.
#[derive(Clone, Copy)]
pub struct Place {
    pub at: usize,
    pub batch: u16,
}
