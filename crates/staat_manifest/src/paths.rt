// Refusals that name a path or a part. Where there is no memory for it, that is the refusal.
ghost use Rattle.std.specs.Prelude.{◌++◌, Some, codes};
ghost use Rattle.staat_manifest.specs.declared.refusal.ManifestRefusal.TheVariants.{BadShape, RepeatedName};
ghost use Rattle.staat_manifest.specs.Answers.{RefusesPart};
ghost use Rattle.staat_manifest.specs.Rules.{part_path, piece_path};

use crate::ManifestRefusal;
use crate::listing::name_of;
use staat_vec::Name;
use std::alloc::Global;

pub(crate) fn bad_shape(alloc: Global, path: &str) -> ManifestRefusal
    ensures { RefusesPart (Some (BadShape path.now)) result }
{
    match name_of(alloc, path) {
        Ok(path) => ManifestRefusal::BadShape(path),
        Err(_) => ManifestRefusal::OutOfMemory,
    }
}

pub(crate) fn bad_part(alloc: Global, k: u32) -> ManifestRefusal
    ensures { RefusesPart (Some (BadShape (part_path k))) result }
{
    match format!(in alloc; "/parts/{k}") {
        Ok(path) => ManifestRefusal::BadShape(Name::from_string(path)),
        Err(_) => ManifestRefusal::OutOfMemory,
    }
}

pub(crate) fn bad_member(alloc: Global, k: u32, member: &str) -> ManifestRefusal
    ensures { RefusesPart (Some (BadShape (part_path k ++ codes "/" ++ member.now))) result }
{
    match format!(in alloc; "/parts/{k}/{member}") {
        Ok(path) => ManifestRefusal::BadShape(Name::from_string(path)),
        Err(_) => ManifestRefusal::OutOfMemory,
    }
}

pub(crate) fn bad_piece(alloc: Global, k: u32, i: usize) -> ManifestRefusal
    ensures { RefusesPart (Some (BadShape (piece_path k i))) result }
{
    match format!(in alloc; "/parts/{k}/pieces/{i}") {
        Ok(path) => ManifestRefusal::BadShape(Name::from_string(path)),
        Err(_) => ManifestRefusal::OutOfMemory,
    }
}

pub(crate) fn repeated_name(alloc: Global, name: &str) -> ManifestRefusal
    ensures { RefusesPart (Some (RepeatedName name.now)) result }
{
    match name_of(alloc, name) {
        Ok(name) => ManifestRefusal::RepeatedName(name),
        Err(_) => ManifestRefusal::OutOfMemory,
    }
}
