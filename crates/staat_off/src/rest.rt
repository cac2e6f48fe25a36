// The words of a file, one after another.
ghost use Rattle.std.specs.Prelude.{◌≡◌, ◌≤◌, length, take, false, option_map};
ghost use Rattle.std.specs.List.{prefix_len};
ghost use Rattle.staat_off.specs.Scan.{after_line, begins, behind, gap, goes_on, line_len, next_word};
ghost use Rattle.staat_off.specs.Words.{is_blank, is_plain};

use std::marker::Model;

/// Begins a comment.
pub(crate) const HASH: u8 = b'#';

/// Ends a line, and a comment with it.
pub(crate) const LINE_FEED: u8 = b'\n';

/// What is left of a file.
#[derive(Drop)]
pub(crate) struct Rest<'a> {
    bytes: &'a [u8],
    at: u64,
}

impl<'a> Model for Rest<'a> {
    ghost use Rattle.std.specs.Prelude.{◌≤◌, ◌+◌, ◌^◌, length};
    ghost use Rattle.staat_off.specs.Scan.{Rest as Left};

    ghost Value = { Left };

    ghost view = { λ r. record { bytes = r.bytes.now; at = r.at } };

    ghost invariant = { λ r. r.at + length r.bytes.now ≤ 2 ^ 63 };
}

/// A word, and the offset of its first byte.
#[derive(Clone, Copy)]
pub(crate) struct Word<'a> {
    pub(crate) text: &'a [u8],
    pub(crate) at: u64,
}

fn is_blank_byte(b: u8) -> bool
    ensures { result ≡ is_blank b }
{
    b == b' ' || (9 <= b && b <= 13)
}

fn is_plain_byte(b: u8) -> bool
    ensures { result ≡ is_plain b }
{
    !(is_blank_byte(b) || b == HASH)
}

fn begins_word(in_comment: bool, b: u8) -> bool
    ensures { result ≡ begins in_comment b }
{
    !in_comment && is_plain_byte(b)
}

fn comment_goes_on(in_comment: bool, b: u8) -> bool
    ensures { result ≡ goes_on in_comment b }
{
    if in_comment {
        b != LINE_FEED
    } else {
        b == HASH
    }
}

// How many bytes stand before the next word.
#[tactic(auto, unfolding(crate::specs::Scan::gap))]
fn gap(bytes: &[u8]) -> usize
    ensures count { result ≡ gap false bytes.now }
    ensures bound { result ≤ length bytes.now }
{
    let mut in_comment = false;
    for (i, byte) in bytes.iter().enumerate() {
        if begins_word(in_comment, *byte) {
            return i;
        }
        in_comment = comment_goes_on(in_comment, *byte);
    }
    bytes.len()
}

// How long the word in front is.
fn word_len(bytes: &[u8]) -> usize
    ensures count { result ≡ prefix_len is_plain bytes.now }
    ensures bound { result ≤ length bytes.now }
{
    for (i, byte) in bytes.iter().enumerate() {
        if !is_plain_byte(*byte) {
            return i;
        }
    }
    bytes.len()
}

// How long the line is, with its LF.
#[tactic(auto, unfolding(crate::specs::Scan::line_len))]
fn line_len(bytes: &[u8]) -> usize
    ensures count { result ≡ line_len bytes.now }
    ensures bound { result ≤ length bytes.now }
{
    for (i, byte) in bytes.iter().enumerate() {
        if *byte == LINE_FEED {
            return i + 1;
        }
    }
    bytes.len()
}

impl<'a> Rest<'a> {
    ghost use Rattle.staat_off.specs.Views.{word_view};

    /// The whole file.
    pub(crate) fn of(file: &'a [u8]) -> Rest<'a>
        ensures { result ≡ record { bytes = file.entry.now; at = 0 } }
    {
        Rest { bytes: file, at: 0 }
    }

    // Passes over so many bytes.
    fn pass(&mut self, count: usize) -> &'a [u8]
        requires { count ≤ length self.old.bytes }
        ensures passed { result.now ≡ take count self.old.bytes }
        ensures rest { self.new ≡ behind count self.old }
    {
        let (front, rest) = self.bytes.split_at(count);
        self.bytes = rest;
        self.at += count as u64;
        front
    }

    /// The next word.
    #[tactic(auto, unfolding(crate::specs::Scan::next_word))]
    pub(crate) fn next_word(&mut self) -> Option<Word<'a>>
        ensures { next_word self.old ≡ (option_map word_view result, self.new) }
    {
        self.pass(gap(self.bytes));
        let at = self.at;
        let count = word_len(self.bytes);
        if count == 0 {
            return None;
        }
        let text = self.pass(count);
        Some(Word { text, at })
    }

    /// Passes over what is left of the line.
    #[tactic(auto, unfolding(crate::specs::Scan::after_line))]
    pub(crate) fn pass_line(&mut self)
        ensures { self.new ≡ after_line self.old }
    {
        self.pass(line_len(self.bytes));
    }
}
