// The fields of a file: counts, indices and coordinates.
ghost use Rattle.std.specs.Prelude.{◌≤◌};
ghost use Rattle.staat_off.specs.Answers.{Reads};
ghost use Rattle.staat_off.specs.Reading.{coordinate, corner_count, count, end, header, index, point, word};
ghost use Rattle.staat_off.specs.Views.{word_view};

use crate::coordinate::coordinate_of;
use crate::digits::short_number;
use crate::refusal::OffRefusal;
use crate::rest::{Rest, Word};
use staat_limits::{MOST_COUNT, MOST_DIGITS};
use staat_vec::V3;

// A word, where one is wanted.
#[tactic(auto, unfolding(crate::specs::Reading::word))]
fn read_word<'a>(rest: &mut Rest<'a>) -> Result<Word<'a>, OffRefusal>
    ensures { Reads word_view result rest.new (word rest.old) }
{
    rest.next_word().ok_or(OffRefusal::ShortFile)
}

/// A count.
#[tactic(auto, unfolding(crate::specs::Reading::count))]
pub(crate) fn read_count(rest: &mut Rest<'_>) -> Result<u32, OffRefusal>
    ensures { Reads (λ n. n) result rest.new (count rest.old) }
{
    let word = read_word(rest)?;
    match short_number(word.text) {
        Some(number) if number <= MOST_COUNT => Ok(number),
        _ => Err(OffRefusal::BadCount(word.at)),
    }
}

/// How many corners a face has.
#[tactic(auto, unfolding(crate::specs::Reading::corner_count))]
pub(crate) fn read_corner_count(rest: &mut Rest<'_>) -> Result<u32, OffRefusal>
    ensures { Reads (λ n. n) result rest.new (corner_count rest.old) }
{
    let word = read_word(rest)?;
    match short_number(word.text) {
        Some(number) if 1 <= number && number <= MOST_COUNT => Ok(number),
        _ => Err(OffRefusal::BadCount(word.at)),
    }
}

/// The number of one of so many vertices.
#[tactic(auto, unfolding(crate::specs::Reading::index))]
pub(crate) fn read_index(vertices: u32, rest: &mut Rest<'_>) -> Result<u32, OffRefusal>
    ensures { Reads (λ n. n) result rest.new (index vertices rest.old) }
{
    let word = read_word(rest)?;
    match short_number(word.text) {
        Some(number) if number < vertices => Ok(number),
        _ => Err(OffRefusal::BadIndex(word.at)),
    }
}

// A coordinate, times 10 to the power of `digits`.
#[tactic(auto, unfolding(crate::specs::Reading::coordinate))]
fn read_coordinate(digits: u32, rest: &mut Rest<'_>) -> Result<i128, OffRefusal>
    requires { digits ≤ MOST_DIGITS }
    ensures { Reads (λ z. z) result rest.new (coordinate digits rest.old) }
{
    let word = read_word(rest)?;
    coordinate_of(word, digits)
}

/// A vertex, with each coordinate times 10 to the power of `digits`.
#[tactic(auto, unfolding(crate::specs::Reading::point))]
pub(crate) fn read_point(digits: u32, rest: &mut Rest<'_>) -> Result<V3, OffRefusal>
    requires { digits ≤ MOST_DIGITS }
    ensures { Reads (λ v. v) result rest.new (point digits rest.old) }
{
    let x = read_coordinate(digits, rest)?;
    let y = read_coordinate(digits, rest)?;
    let z = read_coordinate(digits, rest)?;
    Ok(V3 { x, y, z })
}

/// The header.
#[tactic(auto, unfolding(crate::specs::Reading::header))]
pub(crate) fn read_header(rest: &mut Rest<'_>) -> Result<(), OffRefusal>
    ensures { Reads (λ u. u) result rest.new (header rest.old) }
{
    match rest.next_word() {
        Some(word) if word.text == b"OFF".as_slice() => Ok(()),
        _ => Err(OffRefusal::NoHeader),
    }
}

/// The end, where no word follows.
#[tactic(auto, unfolding(crate::specs::Reading::end))]
pub(crate) fn read_end(rest: &mut Rest<'_>) -> Result<(), OffRefusal>
    ensures { Reads (λ u. u) result rest.new (end rest.old) }
{
    match rest.next_word() {
        Some(word) => Err(OffRefusal::Trailing(word.at)),
        None => Ok(()),
    }
}
