//! Laws over the definition of reading. Each is a function that does nothing, and its contract is the law.
ghost use Rattle.std.specs.Prelude.{◌≡◌, ◌≤◌, ◌↔◌, ℕ, List, Some, None, Ok, Err};
ghost use Rattle.staat_off.specs.declared.raw.Raw.{Raw};
ghost use Rattle.staat_off.specs.declared.refusal.OffRefusal.{OffRefusal as Refusal};
ghost use Rattle.staat_off.specs.declared.refusal.OffRefusal.TheVariants.{BadNumber};
ghost use Rattle.staat_off.specs.Coordinates.{coordinate_of};
ghost use Rattle.staat_off.specs.Numerals.{Numeral, numeral_of};
ghost use Rattle.staat_off.specs.Offsets.{NamesWord};
ghost use Rattle.staat_off.specs.Raws.{HasCorners, IsCounted, IsIndexed};
ghost use Rattle.staat_off.specs.Reading.{reading};
ghost use Rattle.staat_off.specs.Scan.{Rest, after_line, next_word, rest_at};
ghost use Rattle.staat_off.specs.Spelling.{Spells};
ghost use Rattle.staat_off.specs.Values.{IsValueOf};
ghost use Rattle.staat_off.specs.Words.{IsNextLine, IsNextWord, IsStop, IsWordPlace, Word, end_of};

use crate::numeral::LONGEST_NUMBER;
use crate::rest::{HASH, LINE_FEED};

/// The word that the scan finds is the next word of the file: a longest run of bytes that are neither blank nor `#`
/// and lie outside comments, with none before it. Where the scan finds no word, none is left.
///
/// The scan begins at the file's first byte, and goes on only from places of this kind: behind a word, or behind a
/// line.
pub fn next_word_is_next()
    ensures begins { (file : List ℕ) → IsStop file 0 }
    ensures found { (file : List ℕ) (p : ℕ) (w : Word) (rest : Rest) → IsStop file p
        → next_word (rest_at file p) ≡ (Some w, rest)
        → IsNextWord file p w × IsStop file (end_of w) × (rest ≡ rest_at file (end_of w)) }
    ensures none { (file : List ℕ) (p : ℕ) (rest : Rest) → IsStop file p
        → next_word (rest_at file p) ≡ (None, rest)
        → (i : ℕ) → p ≤ i → IsWordPlace file i → ⊥ }
{}

/// What is passed over as a line ends behind the next LF, or at the file's end.
#[tactic(auto, using(crate::proofs::NextWord::line_is_passed))]
pub fn line_is_passed()
    ensures { (file : List ℕ) (p : ℕ) → IsStop file p → (q : ℕ) × IsNextLine file p q × IsStop file q
        × (after_line (rest_at file p) ≡ rest_at file q) }
{}

/// A word is taken apart into a numeral exactly where it is spelled as a sign, digits, a point, digits and an
/// exponent.
pub fn numerals_are_spelled()
    ensures { (word : List ℕ) (n : Numeral) → (numeral_of word ≡ Some n) ↔ Spells word n }
{}

/// A word that spells a numeral is decided by the equation of its value, and one that spells none is a bad number.
#[tactic(auto, using(crate::proofs::Decisions::deciding))]
pub fn coordinates_by_equation()
    ensures spelled { (digits : ℕ) (w : Word) (n : Numeral) → Spells w.text n
        → IsValueOf digits n w.at (coordinate_of digits w) }
    ensures bad { (digits : ℕ) (w : Word) → ((n : Numeral) → Spells w.text n → ⊥)
        → coordinate_of digits w ≡ Err (BadNumber w.at) }
{}

/// The number with a refusal is the offset of a word of the file. No reading is want of memory.
#[tactic(auto, using(crate::proofs::OffsetLemmas::refusal_names_word))]
pub fn refusals_name_words()
    ensures { (digits : ℕ) (file : List ℕ) (refusal : Refusal) → reading digits file ≡ Err refusal →
        NamesWord file refusal }
{}

/// The corners of what is read are the numbers of its points, no coordinate is too great, and no list too long.
pub fn corners_are_vertices()
    ensures indexed { (digits : ℕ) (file : List ℕ) (raw : Raw) → reading digits file ≡ Ok raw →
        IsIndexed raw }
    ensures counted { (digits : ℕ) (file : List ℕ) (raw : Raw) → reading digits file ≡ Ok raw →
        IsCounted raw }
    ensures corners { (digits : ℕ) (file : List ℕ) (raw : Raw) → reading digits file ≡ Ok raw →
        HasCorners raw }
{}

/// The bytes and the bound that the format fixes, as numbers: `#` begins a comment and LF ends it; a coordinate has
/// at most 64 bytes.
pub fn constants()
    ensures comment { HASH ≡ 35 }
    ensures line_end { LINE_FEED ≡ 10 }
    ensures number { LONGEST_NUMBER ≡ 64 }
{}
