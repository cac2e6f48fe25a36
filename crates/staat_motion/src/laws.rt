//! Laws on what is kept for a direction. Each is a function that does nothing, and its contract is the law.
ghost use Rattle.std.specs.Prelude.{List, ◌≡◌, length};
ghost use Rattle.staat_model.specs.declared.assembly.Part.{Part as PartValue};
ghost use Rattle.staat_model.specs.declared.certificate.Arc.{Arc as ArcValue};
ghost use Rattle.staat_motion.specs.Motions.{HasBothPieces, HasShadows, Motion, IsMotionOf};

/// For each piece of the parts that it was made from a shadow is kept.
pub fn pieces_have_shadows()
    ensures { (parts : List PartValue) (along : Motion) (arc : ArcValue) → IsMotionOf parts along
        → HasBothPieces parts arc → HasShadows along arc }
{}

/// For each of the parts that it was made from a shadow is kept.
pub fn parts_have_shadows()
    ensures { (parts : List PartValue) (along : Motion) → IsMotionOf parts along
        → length along.wholes ≡ length parts }
{}
