//! Laws over the exploded view. Each is a function that does nothing, and its contract is the law.
ghost use Rattle.std.specs.Prelude.{◌≡◌, ◌≢◌, ◌≤◌, ℕ, List, All, Ok, length};
ghost use Rattle.staat_vec.specs.declared.vector.V3.{V3 as Vector};
ghost use Rattle.staat_vec.specs.declared.vector.TheConstants.{POINT};
ghost use Rattle.staat_vec.specs.Vectors.{IsWithin, origin};
ghost use Rattle.staat_off.specs.declared.raw.Raw.{Raw as RawValue};
ghost use Rattle.staat_off.specs.Raws.{HasCorners, IsCounted, IsIndexed};
ghost use Rattle.staat_off.specs.Reading.{reading};
ghost use Rattle.staat_explode.specs.declared.boxes.Bounds.{Bounds as Box};
ghost use Rattle.staat_explode.specs.declared.shifted.Shifted.{Shifted as ShiftedPart};
ghost use Rattle.staat_explode.specs.declared.scene.Solid.{Solid as SolidValue};
ghost use Rattle.staat_explode.specs.Apart.{AreParted, IsIn};
ghost use Rattle.staat_explode.specs.Boxes.{IsBoxOf, box_of};
ghost use Rattle.staat_explode.specs.Scenes.{off_text, points_of_scene, scene_of};
ghost use Rattle.staat_explode.specs.Shifts.{ArePast, steps_apart};

/// A box has as its least and greatest number in each component those of its points.
#[tactic(auto, using(crate::proofs::Standing::box_least))]
pub fn box_is_least()
    ensures { (points : List Vector) → 1 ≤ length points → IsBoxOf points (box_of points) }
{}

/// The moved parts go on by the least multiple of the direction that takes them past the resting ones.
#[tactic(auto, using(crate::proofs::Stepping::stepping))]
pub fn steps_are_least()
    ensures past { (boxes : List Box) (d : Vector) (moved rest : List ShiftedPart) → d ≢ origin
        → ArePast boxes d moved rest (steps_apart boxes d moved rest) }
    ensures least { (boxes : List Box) (d : Vector) (moved rest : List ShiftedPart) (k : ℕ) → d ≢ origin
        → ArePast boxes d moved rest k → steps_apart boxes d moved rest ≤ k }
{}

/// Parted boxes have no point in common.
pub fn no_common_point()
    ensures { (a b : Box) (x : Vector) → AreParted a b → IsIn a x → IsIn b x → ⊥ }
{}

/// What is read in the text of points and faces is those points and faces.
#[tactic(auto, using(crate::proofs::Rereading::reading_again))]
pub fn text_is_read_again()
    ensures { (raw : RawValue) → IsIndexed raw → IsCounted raw → HasCorners raw → reading 0 (off_text raw)
        ≡ Ok raw }
{}

/// What is read in the text of a scene is its points and faces, where they are no more than a file may hold and no
/// written coordinate is too great.
#[tactic(auto, using(crate::proofs::Lines::scene_again))]
pub fn scene_is_read_again()
    ensures { (solids : List SolidValue) (shifts : List Vector) → All (λ s. IsIndexed s.raw) solids
        → All (IsWithin POINT) (points_of_scene solids shifts) → IsCounted (scene_of solids shifts)
        → HasCorners (scene_of solids shifts) → reading 0 (off_text (scene_of solids shifts))
        ≡ Ok (scene_of solids shifts) }
{}
