// The values of a subcommand's arguments, as `clap` found them.
ghost use Rattle.std.specs.Prelude.{◌≡◌, ◌≤◌, ◌≢◌, map, option_map, IfSome, IfOk};
ghost use Rattle.clap.specs.Words.{all_of, first_of, found_of, rows_of};
ghost use Rattle.staat_vec.specs.Vectors.{IsWithin, origin};
ghost use Rattle.staat_limits.specs.Versions.{IsVersion};
ghost use Rattle.staat_limits.specs.declared.limits.TheConstants.{LEAST_PLANES};
ghost use Rattle.staat_words.specs.Requests.{ReadsWords, IsInputWithin, IsNamedProduct, certificate_in};
ghost use Rattle.staat_words.specs.Requests.{digits_asked, drill_in, input_in, is_given, limit_of, number_within};
ghost use Rattle.staat_words.specs.Requests.{planes_in, vector_in};

use crate::request::{DrillProduct, Input, RequestRefusal};
use crate::vector::vector_of;
use clap::ArgMatches;
use staat_limits::{LEAST_PLANES, MOST_BOXES, MOST_CELL_PLANES, MOST_DIGITS, MOST_PARTS};
use staat_number::natural_of;
use staat_vec::{DIRECTION, Name, Names, V3};
use std::alloc::{AllocError, Global};

/// The first value of an argument.
pub fn value_of<'a>(matches: &ArgMatches<'a>, id: &str) -> Option<&'a str>
    ensures { option_map (λ s. s.now) result ≡ first_of id.now (rows_of (found_of matches.now)) }
{
    matches.get_str(id)
}

// All values of an argument.
fn values_of<'m, 'a>(matches: &'m ArgMatches<'a>, id: &str) -> Option<&'m [&'a str]>
    ensures { option_map (λ s. map (λ v. v.now) s.now) result
        ≡ all_of id.now (rows_of (found_of matches.entry.now)) }
{
    matches.get_strs(id)
}

/// The option `--digits`, 0 where it is not given.
#[tactic(auto, unfolding(crate::specs::Requests::digits_asked))]
pub fn digits_of(matches: &ArgMatches<'_>) -> Result<u32, RequestRefusal>
    ensures answers { ReadsWords (digits_asked (rows_of (found_of matches.now))) result }
    ensures bound { IfOk result (λ n. n ≤ MOST_DIGITS) }
{
    let text = value_of(matches, "digits").unwrap_or("0");
    let n = natural_of(text, u128::from(MOST_DIGITS)).ok_or(RequestRefusal::Usage)?;
    Ok(n as u32)
}

// The number that a text spells, from the least one to the greatest one.
fn number_of(text: &str, least: u32, most: u32) -> Option<u32>
    ensures exact { result ≡ number_within least most text.now }
    ensures least { IfSome result (λ n. least ≤ n) }
    ensures most { IfSome result (λ n. n ≤ most) }
{
    let n = natural_of(text, u128::from(most))?;
    if n < u128::from(least) {
        return None;
    }
    Some(n as u32)
}

/// The option `--planes`, as many as there may be where it is not given.
#[tactic(auto, unfolding(crate::specs::Requests::planes_in))]
pub fn planes_of(matches: &ArgMatches<'_>, most: u32) -> Result<u32, RequestRefusal>
    requires { LEAST_PLANES ≤ most }
    ensures answers { ReadsWords (planes_in most (rows_of (found_of matches.now))) result }
    ensures least { IfOk result (λ n. LEAST_PLANES ≤ n) }
    ensures most { IfOk result (λ n. n ≤ most) }
{
    match value_of(matches, "planes") {
        None => Ok(most),
        Some(text) => number_of(text, LEAST_PLANES, most).ok_or(RequestRefusal::Usage),
    }
}

/// Whether a flag is given.
pub fn is_given(matches: &ArgMatches<'_>, id: &str) -> bool
    ensures { result ≡ is_given id.now (rows_of (found_of matches.now)) }
{
    matches!(value_of(matches, id), Some("true"))
}

/// How many planes there may be: in a robust plan no more than those whose cells are listed.
pub fn limit_of(robust: bool, planes: u32) -> u32
    ensures { result ≡ limit_of robust planes }
{
    if robust && planes > MOST_CELL_PLANES {
        MOST_CELL_PLANES
    } else {
        planes
    }
}

/// The version of the certificate, where the flag `--cert` asks for one: that of the option `--format`, 2 where it is
/// not given. Usage comes where the flag is not given and the option is.
#[tactic(auto, unfolding(crate::specs::Requests::certificate_in))]
pub fn certificate_of(matches: &ArgMatches<'_>) -> Result<Option<u32>, RequestRefusal>
    ensures answers { ReadsWords (certificate_in (rows_of (found_of matches.now))) result }
    ensures version { IfOk result (λ certificate. IfSome certificate IsVersion) }
{
    match (is_given(matches, "cert"), value_of(matches, "format")) {
        (true, None) => Ok(Some(2)),
        (true, Some(text)) => Ok(Some(number_of(text, 1, 2).ok_or(RequestRefusal::Usage)?)),
        (false, None) => Ok(None),
        (false, Some(_)) => Err(RequestRefusal::Usage),
    }
}

/// The product of the kind and size that are given.
#[tactic(auto, unfolding(crate::specs::Requests::drill_in))]
pub fn drill_in(matches: &ArgMatches<'_>) -> Option<DrillProduct>
    ensures exact { result ≡ drill_in (rows_of (found_of matches.now)) }
    ensures bounds { IfSome result IsNamedProduct }
{
    let kind = value_of(matches, "kind")?;
    let number = value_of(matches, "number")?;
    match kind {
        "row" => Some(DrillProduct::Cubes(number_of(number, 1, MOST_PARTS)?)),
        "box" => Some(DrillProduct::Boxes(number_of(number, 1, MOST_BOXES)?)),
        _ => None,
    }
}

/// The vector that an option gives.
#[tactic(auto, unfolding(crate::specs::Requests::vector_in))]
pub fn vector_in(matches: &ArgMatches<'_>, id: &str, most: u128) -> Result<V3, RequestRefusal>
    requires { most ≤ DIRECTION }
    ensures answers { ReadsWords (vector_in id.now most (rows_of (found_of matches.now))) result }
    ensures bound { IfOk result (IsWithin most) }
    ensures moves { IfOk result (λ v. v ≢ origin) }
{
    match value_of(matches, id) {
        Some(text) => vector_of(text, most).ok_or(RequestRefusal::Usage),
        None => Err(RequestRefusal::Usage),
    }
}

/// The name that an argument gives.
pub fn name_in(alloc: Global, matches: &ArgMatches<'_>, id: &str) -> Result<Name, RequestRefusal>
    ensures { ReadsWords (first_of id.now (rows_of (found_of matches.now))) result }
{
    match value_of(matches, id) {
        Some(word) => Ok(Name::from_text(alloc, word)?),
        None => Err(RequestRefusal::Usage),
    }
}

// The names that words are.
fn names_of(alloc: Global, words: &[&str]) -> Result<Names, AllocError>
    ensures { IfOk result (λ names. names ≡ map (λ s. s.now) words.now) }
{
    let mut names = Vec::new(alloc);
    for word in words {
        names.push(Name::from_text(alloc, word)?)?;
    }
    Ok(Names::from_vec(names))
}

/// Where the parts come from: either a part list, or 1 to so many files.
#[tactic(auto, unfolding(crate::specs::Requests::input_in))]
pub fn input_of(alloc: Global, matches: &ArgMatches<'_>, most: u32) -> Result<Input, RequestRefusal>
    ensures answers { ReadsWords (input_in most (rows_of (found_of matches.now))) result }
    ensures bounds { IfOk result (IsInputWithin most) }
{
    match (value_of(matches, "manifest"), values_of(matches, "files")) {
        (Some(list), None) => Ok(Input::Manifest(Name::from_text(alloc, list)?)),
        (None, Some(files)) if !files.is_empty() && files.len() <= most as usize => {
            Ok(Input::Files(names_of(alloc, files)?))
        }
        _ => Err(RequestRefusal::Usage),
    }
}
