// From an assembly or a product to a sound one.
ghost use Rattle.std.specs.Prelude.{◌≡◌, ℕ, Err, IfOk};
ghost use Rattle.staat_model.specs.Assemblies.{IsSound};
ghost use Rattle.staat_asm.specs.Overlaps.{IsFirstOverlap};

use crate::refusal::AsmRefusal;
use crate::search::search;
use staat_cone::FacetSource;
use staat_model::{Assembly, Product, Sound, SoundProduct};
use std::alloc::Global;

/// The product, where no pieces of different parts overlap. Otherwise the answer names the first two that do.
///
/// Pieces of one part may overlap, and pieces that only touch do not. Boxes are compared first, those of pieces with
/// those of whole parts and then with those of their pieces. The source is asked once at most for each two pieces of
/// different parts, and not at all where a wall across an axis keeps them apart; the search ends at the first two that
/// overlap. The product is consumed, also by a refusal.
pub fn build_product<F: FacetSource>(
    alloc: Global,
    source: &F,
    a: Product,
) -> Result<SoundProduct, AsmRefusal>
    ensures same { IfOk result (λ sound. sound ≡ a) }
    ensures sound { IfOk result (λ sound. IsSound sound) }
    ensures overlap { (p i q j : ℕ) → result ≡ Err (AsmRefusal.Overlap p i q j) →
        IsFirstOverlap a (record { a = p; i = i; b = q; j = j }) }
{
    search(alloc, source, &a)?;
    Ok(SoundProduct::seal(a))
}

/// The assembly, where no pieces of different parts overlap, as [`build_product`] has it of a product.
///
/// The assembly is consumed, also by a refusal.
pub fn build<F: FacetSource>(alloc: Global, source: &F, a: Assembly) -> Result<Sound, AsmRefusal>
    ensures same { IfOk result (λ sound. sound ≡ a) }
    ensures sound { IfOk result (λ sound. IsSound sound) }
    ensures overlap { (p i q j : ℕ) → result ≡ Err (AsmRefusal.Overlap p i q j) →
        IsFirstOverlap a (record { a = p; i = i; b = q; j = j }) }
{
    search(alloc, source, a.product())?;
    Ok(Sound::seal(a))
}
