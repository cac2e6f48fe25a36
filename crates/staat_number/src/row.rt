// A row of numbers, written from its last byte to its first.
ghost use Rattle.std.specs.Prelude.{◌≡◌, ◌+◌, ◌<◌, ◌≤◌, ◌∷◌, ◌++◌, [], length};
ghost use Rattle.std.specs.Fmt.{decimal, signed_decimal};

use itoa::write_digits;
use std::marker::Model;

/// How many bytes a row has room for.
pub const ROOM: usize = 256;

/// How many bytes a number and the space before it take at most.
pub const NUMBER_ROOM: usize = 22;

/// The end of a row, seen as its bytes: each call puts something before them. No memory is asked for.
#[derive(Drop)]
pub struct RowEnd {
    bytes: [u8; ROOM],
    start: usize,
}

impl Model for RowEnd {
    ghost use Rattle.std.specs.Prelude.{◌≤◌, List, drop, ℕ};

    ghost Value = { List ℕ };

    ghost view = { λ r. drop r.start r.bytes };

    ghost invariant = { λ r. r.start ≤ 256 };
}

impl RowEnd {
    /// No byte yet.
    pub fn new() -> RowEnd
        ensures { result ≡ [] }
    {
        RowEnd {
            bytes: [0; ROOM],
            start: ROOM,
        }
    }

    /// Takes all bytes out.
    pub fn clear(&mut self)
        ensures { self.new ≡ [] }
    {
        self.start = ROOM;
    }

    /// The bytes.
    pub fn bytes(&self) -> &[u8]
        ensures { result.now ≡ self.now }
    {
        &self.bytes[self.start..]
    }

    /// Puts a byte before the others.
    pub fn put(&mut self, byte: u8)
        requires { length self.old < ROOM }
        ensures { self.new ≡ byte ∷ self.old }
    {
        let start = self.start - 1;
        self.bytes[start] = byte;
        self.start = start;
    }

    /// Puts a text before the others.
    pub fn put_text(&mut self, text: &[u8])
        requires { length text.now + length self.old ≤ ROOM }
        ensures { self.new ≡ text.now ++ self.old }
    {
        let start = self.start - text.len();
        self.bytes[start..self.start].copy_from_slice(text);
        self.start = start;
    }

    // puts the digits of a number before the others
    fn put_digits(&mut self, n: u64)
        requires { length self.old + 20 ≤ ROOM }
        ensures is { self.new ≡ decimal n ++ self.old }
        ensures size { length self.new ≤ length self.old + 20 }
    {
        self.start = write_digits(n, &mut self.bytes, self.start);
    }

    /// Puts a space and the number's decimal text before the others.
    pub fn put_number(&mut self, z: i64)
        requires { length self.old + NUMBER_ROOM ≤ ROOM }
        ensures is { self.new ≡ 32 ∷ signed_decimal z ++ self.old }
        ensures size { length self.new ≤ length self.old + NUMBER_ROOM }
    {
        self.put_digits(z.unsigned_abs());
        if z < 0 {
            self.put(b'-');
        }
        self.put(b' ');
    }
}
