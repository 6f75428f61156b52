// Why the tracker takes no more requests.

#[derive(Clone, Copy, Debug, PartialEq, Eq)]
pub enum TrackerError {
    // more would be pending and evicted than a core tracks
    Full,
}
