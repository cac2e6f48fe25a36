// The sound assembly that an input gives, and the sound product.
ghost use Rattle.std.specs.Prelude.{◌≡◌, ◌≤◌, [], IfErr, IfOk, List, OnOk, is_ok, length};
ghost use Rattle.staat_input.specs.Opened.{OpensInput};
ghost use Rattle.staat_input.specs.declared.limits.TheConstants.Limits.{ASSEMBLY, PRODUCT};
ghost use Rattle.staat_limits.specs.declared.limits.TheConstants.{MOST_PIECES, MOST_PRODUCT_PARTS};
ghost use Rattle.staat_words.specs.Requests.{IsAsked, IsAskedWithin};
ghost use Rattle.staat_edge.specs.Fitting.{Fit};
ghost use Rattle.staat_input.specs.Work.{Files, Follows};
ghost use Rattle.staat_input.specs.Assembling.{IsSoundOf, IsTested, ReadsSound};
ghost use Rattle.staat_input.specs.Drawing.{AreSmall, IsDrawn};
ghost use Rattle.staat_input.specs.Causes.{HasCause, IfTooLong, MayName, ShelfSide, over};

use crate::input::read_within;
use crate::limits::Limits;
use crate::refusals::asm_fault;
use crate::sketch::Sketch;
use staat_asm::{build, build_product};
use staat_cone::Scan;
use staat_edge::Shelf;
use staat_fault::Fault;
use staat_model::{Assembly, Product, Sound, SoundProduct};
use staat_words::Asked;
use std::alloc::Global;

/// The assembly, where no pieces of different parts overlap.
#[tactic(auto, using(crate::proofs::SoundLemmas::tested))]
pub fn tested(alloc: Global, assembly: Assembly) -> Result<Sound, Fault>
    ensures found { Follows (IsTested assembly) result }
    ensures cause { (shelf : ShelfSide) → IfErr result (HasCause shelf) }
{
    match build(alloc, &Scan, assembly) {
        Ok(sound) => Ok(sound),
        Err(refusal) => Err(asm_fault(refusal)),
    }
}

/// The sound assembly that an input gives. The whole input is read first; then the first two pieces of different
/// parts that overlap are the refusal. The files are kept for a drawing, if there is one.
pub fn read_sketched<H: Shelf>(
    alloc: Global,
    shelf: &mut H,
    asked: &Asked,
    sketch: &mut Sketch,
) -> Result<Sound, Fault>
    requires { IsAsked asked.now }
    ensures holds { (H.told shelf.new).holds ≡ (H.told shelf.old).holds }
    ensures count { (H.told shelf.old).faults ≤ (H.told shelf.new).faults }
    ensures opens { OpensInput ASSEMBLY (is_ok result) asked.now.input [] (H.told shelf.old)
        (H.told shelf.new) }
    ensures found { (files : Files) → Fit (H.told shelf.new) files →
        Follows (IsSoundOf files asked.now) result }
    ensures drawn { (files : Files) → Fit (H.told shelf.new) files → sketch.old.solids.items ≡ [] →
        OnOk result (IsDrawn files asked.now sketch.old.keep sketch.new) }
    ensures small { sketch.old.solids.items ≡ [] →
        IfOk result (λ sound. AreSmall (length sound) MOST_PIECES sketch.new.solids.items) }
    ensures cause { IfErr result (HasCause (over (H.told shelf.old) (H.told shelf.new))) }
    ensures named { IfErr result (IfTooLong (MayName asked.now.input)) }
{
    let parts = read_within(alloc, shelf, asked, Limits::ASSEMBLY, sketch)?;
    tested(alloc, Assembly::seal(parts))
}

/// The same where nothing is drawn.
pub fn read_sound<H: Shelf>(alloc: Global, shelf: &mut H, asked: &Asked) -> Result<Sound, Fault>
    requires { IsAsked asked.now }
    ensures { ReadsSound ASSEMBLY asked.now (H.told shelf.old) (H.told shelf.new) result }
{
    let mut nothing = Sketch::new(alloc, false);
    read_sketched(alloc, shelf, asked, &mut nothing)
}

// The product, where no pieces of different parts overlap.
#[tactic(auto, using(crate::proofs::SoundLemmas::tested))]
fn tested_product(alloc: Global, product: Product) -> Result<SoundProduct, Fault>
    ensures found { Follows (IsTested product) result }
    ensures cause { (shelf : ShelfSide) → IfErr result (HasCause shelf) }
{
    match build_product(alloc, &Scan, product) {
        Ok(sound) => Ok(sound),
        Err(refusal) => Err(asm_fault(refusal)),
    }
}

/// The sound product that an input gives, as [`read_sound`] has it of an assembly: the whole input is read first; then
/// the first two pieces of different parts that overlap are the refusal.
///
/// The product has up to [`MOST_PRODUCT_PARTS`](staat_limits::MOST_PRODUCT_PARTS) parts and
/// [`MOST_PRODUCT_PIECES`](staat_limits::MOST_PRODUCT_PIECES) pieces; a part list with more is refused as
/// `TooManyParts` or `TooManyPieces`.
pub fn read_product<H: Shelf>(
    alloc: Global,
    shelf: &mut H,
    asked: &Asked,
) -> Result<SoundProduct, Fault>
    requires { IsAskedWithin MOST_PRODUCT_PARTS asked.now }
    ensures { ReadsSound PRODUCT asked.now (H.told shelf.old) (H.told shelf.new) result }
{
    let mut nothing = Sketch::new(alloc, false);
    let parts = read_within(alloc, shelf, asked, Limits::PRODUCT, &mut nothing)?;
    tested_product(alloc, Product::seal(parts))
}
