// A part by itself: its form, and the rules that need no other part.
ghost use Rattle.std.specs.Prelude.{◌≡◌, IfOk, map, nat_le};
ghost use Rattle.std.specs.List.{list_all};
ghost use Rattle.serde_json.specs.View.{view};
ghost use Rattle.staat_manifest.specs.Answers.{JudgesPart};
ghost use Rattle.staat_manifest.specs.Placements.{at_of};
ghost use Rattle.staat_manifest.specs.Values.{name_of, pieces_in};
ghost use Rattle.staat_manifest.specs.Rules.{first_refusal, form_rules, is_name, piece_rules};

use crate::ManifestRefusal;
use crate::json::{array_at, has_only, text_at, text_in};
use crate::paths::{bad_member, bad_part, bad_piece};
use crate::placement::placement_of;
use serde_json::Value;
use staat_vec::V3;
use std::alloc::Global;

// How many bytes a name has at most.
const LONGEST_NAME: usize = 255;

fn has_no_controls(bytes: &[u8]) -> bool
    ensures { result ≡ list_all (λ b. nat_le 32 b) bytes.now }
{
    for byte in bytes {
        if *byte < b' ' {
            return false;
        }
    }
    true
}

fn is_name(text: &str) -> bool
    ensures { result ≡ is_name text.now }
{
    !text.is_empty() && text.len() <= LONGEST_NAME && has_no_controls(text.as_bytes())
}

fn check_pieces(alloc: Global, k: u32, pieces: &[Value]) -> Result<(), ManifestRefusal>
    ensures { JudgesPart (first_refusal (piece_rules k 0 (map view pieces.now))) result }
{
    for (i, piece) in pieces.iter().enumerate() {
        if text_in(piece).is_empty() {
            return Err(bad_piece(alloc, k, i));
        }
    }
    Ok(())
}

/// What a part of good form says.
#[derive(Clone, Copy)]
pub(crate) struct Form<'v> {
    pub(crate) name: &'v str,
    /// Its pieces, each of which is a text that is not empty.
    pub(crate) pieces: &'v [Value],
    /// The vector by which they are moved.
    pub(crate) at: V3,
}

/// The form of part `k`, unless the part breaks a rule by itself.
pub(crate) fn form_of<'v>(
    alloc: Global,
    k: u32,
    part: &'v Value,
) -> Result<Form<'v>, ManifestRefusal>
    ensures rules { JudgesPart (first_refusal (form_rules k (view part.entry.now))) result }
    ensures name { IfOk result (λ form. form.name.now ≡ name_of (view part.entry.now)) }
    ensures pieces { IfOk result (λ form. map view form.pieces.now
        ≡ pieces_in (view part.entry.now)) }
    ensures at { IfOk result (λ form. form.at ≡ at_of (view part.entry.now)) }
{
    if !part.is_object() {
        return Err(bad_part(alloc, k));
    }
    let name = text_at(part, "name");
    if !is_name(name) {
        return Err(bad_member(alloc, k, "name"));
    }
    let Some(pieces) = array_at(part, "pieces") else {
        return Err(bad_member(alloc, k, "pieces"));
    };
    let Some(at) = placement_of(part) else {
        return Err(bad_member(alloc, k, "at"));
    };
    if !has_only(part, &["name", "pieces", "at"]) {
        return Err(bad_part(alloc, k));
    }
    if pieces.is_empty() {
        return Err(ManifestRefusal::NoPieces(k));
    }
    check_pieces(alloc, k, pieces)?;
    Ok(Form { name, pieces, at })
}
