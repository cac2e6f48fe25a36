// The whole part list: its shape, its parts one after another, and what they may not share.
ghost use Rattle.std.specs.Prelude.{◌≡◌, ◌<◌, ◌^◌, ◌++◌, ◌∷◌, [], IfOk, OnOk, Some, length, map};
ghost use Rattle.serde_json.specs.View.{view};
ghost use Rattle.staat_manifest.specs.Answers.{AnswersList, JudgesPart};
ghost use Rattle.staat_manifest.specs.Listings.{IsListing, IsListingWithin, IsTally, listed};
ghost use Rattle.staat_manifest.specs.Values.{text_in};
ghost use Rattle.staat_manifest.specs.Rules.{answer_of, first_refusal, part_list, unless_broken};
ghost use Rattle.staat_manifest.specs.Rules.{part_list_within, part_rules, rules_from};

use crate::json::{array_at, has_only, text_in};
use crate::listing::{ListedPart, name_of};
use crate::part::{Form, form_of};
use crate::paths::{bad_shape, repeated_name};
use crate::{Listing, ManifestRefusal};
use indexmap::IndexSet;
use serde_json::Value;
use staat_limits::{MOST_PARTS, MOST_PIECES};
use staat_vec::Names;
use std::alloc::{AllocError, Global};

// The part of this form.
fn listed(alloc: Global, form: &Form<'_>) -> Result<ListedPart, AllocError>
    ensures name { IfOk result (λ part. part.name ≡ form.now.name.now) }
    ensures pieces { IfOk result (λ part. part.pieces ≡ map text_in (map view form.now.pieces.now)) }
    ensures at { IfOk result (λ part. part.at ≡ form.now.at) }
{
    let mut pieces = Vec::new(alloc);
    for piece in form.pieces {
        pieces.push(name_of(alloc, text_in(piece))?)?;
    }
    Ok(ListedPart {
        name: name_of(alloc, form.name)?,
        pieces: Names::from_vec(pieces),
        at: form.at,
    })
}

// Puts a part behind those that are listed, unless it breaks a rule, and tells how many pieces there are then. The
// number of a name is that of its part.
fn add_part<'v>(
    alloc: Global,
    list: &mut Vec<ListedPart>,
    names: &mut IndexSet<&'v str>,
    piece_count: usize,
    part: &'v Value,
    most_pieces: u32,
) -> Result<usize, ManifestRefusal>
    requires room { length list.old.items < 2 ^ 32 }
    requires tallied { IsTally most_pieces list.old.items (map (λ s. s.now) names.old.keys) piece_count }
    ensures rules { JudgesPart (first_refusal (part_rules most_pieces list.old.items (view part.entry.now))) result }
    ensures added { OnOk result (list.new.items ≡ list.old.items ++ listed (view part.entry.now) ∷ []) }
    ensures tallied { IfOk result (IsTally most_pieces list.new.items (map (λ s. s.now) names.new.keys)) }
{
    let form = form_of(alloc, list.len() as u32, part)?;
    if !names.insert(form.name)? {
        return Err(repeated_name(alloc, form.name));
    }
    let piece_count = piece_count + form.pieces.len();
    if piece_count > most_pieces as usize {
        return Err(ManifestRefusal::TooManyPieces);
    }
    list.push(listed(alloc, &form)?)?;
    Ok(piece_count)
}

// The list of the parts, unless one of them breaks a rule.
fn list_parts(alloc: Global, parts: &[Value], most_pieces: u32) -> Result<Listing, ManifestRefusal>
    requires { length parts.now < 2 ^ 32 }
    ensures { AnswersList (unless_broken (first_refusal (rules_from most_pieces [] (map view parts.now)))
        (map listed (map view parts.now))) result }
{
    let mut list = Vec::new(alloc);
    let mut names = IndexSet::new(alloc);
    let mut piece_count = 0;
    for part in parts {
        piece_count = add_part(alloc, &mut list, &mut names, piece_count, part, most_pieces)?;
    }
    Ok(Listing::from_vec(list))
}

// The list of the parts of the value, unless the whole or one of the parts breaks a rule.
#[tactic(auto, unfolding(crate::specs::Rules::whole_rules))]
fn listing_of(
    alloc: Global,
    value: &Value,
    most_parts: u32,
    most_pieces: u32,
) -> Result<Listing, ManifestRefusal>
    ensures { AnswersList (answer_of most_parts most_pieces (Some (view value.now))) result }
{
    if !value.is_object() {
        return Err(bad_shape(alloc, "/"));
    }
    let parts = array_at(value, "parts").unwrap_or(&[]);
    if parts.is_empty() {
        return Err(bad_shape(alloc, "/parts"));
    }
    if !has_only(value, &["parts"]) {
        return Err(bad_shape(alloc, "/"));
    }
    if parts.len() > most_parts as usize {
        return Err(ManifestRefusal::TooManyParts);
    }
    list_parts(alloc, parts, most_pieces)
}

/// The parts that the bytes list, each with its name, the names of its pieces' files and the vector that moves it.
///
/// The bytes are one JSON value: `{"parts": [{"name": "cube", "pieces": ["a.off"], "at": [0, 0, 2]}, ..]}`. A part
/// without `at` is not moved. The rules are tested in a fixed order, and the first that is broken is the refusal:
/// bytes that are not JSON; the whole value's shape; more than `most_parts` parts; then, for each part in order, its
/// shape, no pieces, a name that an earlier part has, and more than `most_pieces` pieces in the parts so far. A member
/// that is repeated counts with its last value.
#[tactic(auto, unfolding(crate::specs::Rules::part_list_within))]
pub fn read_listing(
    alloc: Global,
    bytes: &[u8],
    most_parts: u32,
    most_pieces: u32,
) -> Result<Listing, ManifestRefusal>
    ensures exact { AnswersList (part_list_within most_parts most_pieces bytes.now) result }
    ensures bounds { IfOk result (IsListingWithin most_parts most_pieces) }
{
    match Value::from_slice(alloc, bytes) {
        Ok(value) => listing_of(alloc, &value, most_parts, most_pieces),
        Err(error) if error.is_memory() => Err(ManifestRefusal::OutOfMemory),
        Err(_) => Err(ManifestRefusal::NotJson),
    }
}

/// The parts that the bytes list, by [`read_listing`]: at most [`MOST_PARTS`] with at most [`MOST_PIECES`] pieces.
pub fn read_manifest(alloc: Global, bytes: &[u8]) -> Result<Listing, ManifestRefusal>
    ensures exact { AnswersList (part_list bytes.now) result }
    ensures bounds { IfOk result IsListing }
{
    read_listing(alloc, bytes, MOST_PARTS, MOST_PIECES)
}
