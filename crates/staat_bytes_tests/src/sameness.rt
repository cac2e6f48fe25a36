// Whether two values are the same: what the tests of this crate hold against what they want.
ghost use Rattle.std.specs.Prelude.{◌↔◌, ◌≡◌, IsTrue};

/// Whether two counts are the same.
pub fn are_same_counts(count: usize, other: usize) -> bool
    ensures { IsTrue result ↔ (count ≡ other) }
{
    count == other
}

/// Whether two texts are the same.
pub fn are_same_texts(text: &str, other: &str) -> bool
    ensures { IsTrue result ↔ (text.now ≡ other.now) }
{
    text == other
}

/// Whether two runs of bytes are the same.
pub fn are_same_bytes(bytes: &[u8], other: &[u8]) -> bool
    ensures { IsTrue result ↔ (bytes.now ≡ other.now) }
{
    bytes == other
}
