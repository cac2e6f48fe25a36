// What the program prints where nothing stops it.
use staat_vec::Bytes;

/// A status of 0 or 1, and the whole text for out.
#[derive(Drop)]
pub struct Answer {
    pub status: u8,
    pub text: Bytes,
}
