// What has been read of a text.

/// What has been read of a text: so many whole lines, which a stage has taken, and the front of the next one.
#[derive(Drop)]
pub struct Progress<S> {
    pub stage: S,
    pub line: Vec<u8>,
    /// Room for the numbers of a line.
    pub numbers: Vec<i128>,
    pub count: u64,
    pub is_bad: bool,
}
