// The line that words and numbers make.
ghost use Rattle.std.specs.Prelude.{◌≡◌, ◌+◌, IfOk, IfSome, IfNone, None, codes, if◌then◌else◌, option_map};
ghost use Rattle.std.specs.Str.{bytes_eq};
ghost use Rattle.staat_limits.specs.declared.limits.TheConstants.{MOST_PRODUCT_PARTS};
ghost use Rattle.staat_cert.specs.LineReading.{bare_from, positive_alone};
ghost use Rattle.staat_short.specs.declared.line.ShortLine.{ShortLine as LineValue};
ghost use Rattle.staat_short.specs.declared.line.ShortLine.TheVariants as line;
ghost use Rattle.staat_short.specs.ShortLines.{short_line_text};
ghost use Rattle.staat_short.specs.ShortReading.{pair_from, short_line_from};
ghost use Rattle.staat_short.specs.ShortStanding.{IsShortLineText};

use crate::line::ShortLine;
use staat_cert::{arc_alone, cut_word, natural_alone, positive_alone, read_numbers, vector_alone};
use staat_limits::{MOST_PRODUCT_PARTS, MOST_PRODUCT_PIECES};
use staat_vec::DIRECTION;
use std::alloc::AllocError;

#[tactic(auto, unfolding(staat_cert::specs::LineReading::bare_from))]
fn bare_line(line: ShortLine, numbers: &[i128]) -> Option<ShortLine>
    ensures { result ≡ bare_from line numbers.now }
{
    match numbers {
        [] => Some(line),
        _ => None,
    }
}

#[tactic(auto, unfolding(crate::specs::ShortReading::pair_from))]
fn pair_line(numbers: &[i128]) -> Option<ShortLine>
    ensures { result ≡ pair_from numbers.now }
{
    let pair = arc_alone(MOST_PRODUCT_PARTS, MOST_PRODUCT_PIECES, numbers)?;
    if pair.a < pair.b {
        Some(ShortLine::Pair(pair))
    } else {
        None
    }
}

fn is_word(word: &[u8], name: &[u8]) -> bool
    ensures { result ≡ bytes_eq word.now name.now }
{
    word == name
}

// A line before the nodes and the holds.
fn opening_line(word: &[u8], numbers: &[i128]) -> Option<ShortLine>
    ensures { result
        ≡ (if bytes_eq word.now (codes "plan") then bare_from line.Plan numbers.now
        else if bytes_eq word.now (codes "stuck") then bare_from line.Stuck numbers.now
        else if bytes_eq word.now (codes "rest") then bare_from line.Rest numbers.now
        else if bytes_eq word.now (codes "parts")
        then option_map line.Parts (positive_alone (MOST_PRODUCT_PARTS + 1) numbers.now)
        else None) }
{
    if is_word(word, b"plan") {
        bare_line(ShortLine::Plan, numbers)
    } else if is_word(word, b"stuck") {
        bare_line(ShortLine::Stuck, numbers)
    } else if is_word(word, b"rest") {
        bare_line(ShortLine::Rest, numbers)
    } else if is_word(word, b"parts") {
        Some(ShortLine::Parts(positive_alone(numbers, MOST_PRODUCT_PARTS + 1)?))
    } else {
        None
    }
}

#[tactic(auto, unfolding(crate::specs::ShortReading::short_line_from))]
fn line_from(word: &[u8], numbers: &[i128]) -> Option<ShortLine>
    ensures { result ≡ short_line_from word.now numbers.now }
{
    if is_word(word, b"pair") {
        pair_line(numbers)
    } else if is_word(word, b"part") {
        Some(ShortLine::Part(natural_alone(numbers, MOST_PRODUCT_PARTS)?))
    } else if is_word(word, b"hold") {
        bare_line(ShortLine::Hold, numbers)
    } else if is_word(word, b"leaf") {
        Some(ShortLine::Leaf(natural_alone(numbers, MOST_PRODUCT_PARTS)?))
    } else if is_word(word, b"split") {
        Some(ShortLine::Split(vector_alone(DIRECTION, numbers)?))
    } else if is_word(word, b"group") {
        bare_line(ShortLine::Group, numbers)
    } else if is_word(word, b"end") {
        bare_line(ShortLine::End, numbers)
    } else {
        opening_line(word, numbers)
    }
}

fn is_title(bytes: &[u8]) -> bool
    ensures { result ≡ bytes_eq bytes.now (short_line_text line.Title) }
{
    bytes == b"STAAT SHORT 1\n".as_slice()
}

/// The line that the bytes spell, its line feed included. `numbers` is room for its numbers.
pub fn line_of(numbers: &mut Vec<i128>, bytes: &[u8]) -> Result<Option<ShortLine>, AllocError>
    ensures found { IfOk result (λ r. IfSome r (λ l. IsShortLineText bytes.now l)) }
    ensures none { IfOk result (λ r. IfNone r ((l : LineValue) → IsShortLineText bytes.now l → ⊥)) }
{
    if is_title(bytes) {
        return Ok(Some(ShortLine::Title));
    }
    let (word, rest) = cut_word(bytes);
    let found = read_numbers(numbers, rest)?;
    if !found {
        return Ok(None);
    }
    Ok(line_from(word, numbers.as_slice()))
}
