// Incidences in order. A cell and the cell of the opposite directions stand at one place of their list, the one from
// the beginning and the other from the end: so one incidence of each two opposite ones is sorted, and the other
// follows from it, since the numbers of both have the same sum.
ghost use Rattle.std.specs.Prelude.{◌≡◌, ◌++◌, Contains, IfOk, OnOk, map, reverse};
ghost use Rattle.staat_vec.specs.declared.vector.Sign.TheVariants.{Pos};
ghost use Rattle.staat_vec.specs.Lists.{Lists};
ghost use Rattle.staat_cells.specs.Mirrors.{lesser, mirror_sum, mirrored};
ghost use Rattle.staat_cells.specs.Packing.{incidence_cmp};

use crate::incidence::{Incidence, incidence_of};
use staat_vec::{Normal, OutOfMemory, Sign};
use std::alloc::Global;
use std::cmp::Ordering;

/// The incidences, ascending and each once, in the memory that they have.
pub(crate) fn in_order(mut incidences: Vec<Incidence>) -> Vec<Incidence>
    ensures { Lists incidence_cmp (Contains incidences.items) result.items }
{
    incidences.sort_unstable();
    incidences.dedup();
    incidences
}

// a positive sign for each plane
fn positive_signs(alloc: Global, planes: &[Normal]) -> Result<Vec<Sign>, OutOfMemory>
    ensures { IfOk result (λ signs. signs.items ≡ map (λ n. Pos) planes.now) }
{
    let signs = planes.iter().map(|_| Sign::Pos);
    Ok(signs.collect(alloc)?)
}

/// The sum of two opposite incidences of so many cells: where one has a sign, the other has its opposite.
pub(crate) fn mirror_sum(
    alloc: Global,
    planes: &[Normal],
    count: usize,
) -> Result<Incidence, OutOfMemory>
    ensures { IfOk result (λ sum. sum ≡ mirror_sum planes.now count) }
{
    let signs = positive_signs(alloc, planes)?;
    Ok(incidence_of(&signs, count.saturating_sub(1)))
}

// the opposite incidence
fn mirrored(sum: Incidence, x: Incidence) -> Incidence
    ensures { result ≡ mirrored sum x }
{
    Incidence {
        a: sum.a.saturating_sub(x.a),
        b: sum.b.saturating_sub(x.b),
        c: sum.c.saturating_sub(x.c),
        d: sum.d.saturating_sub(x.d),
        of: sum.of.saturating_sub(x.of),
    }
}

// the lesser of an incidence and its opposite
fn lesser(sum: Incidence, x: Incidence) -> Incidence
    ensures { result ≡ lesser sum x }
{
    let image = mirrored(sum, x);
    match x.cmp(&image) {
        Ordering::Less => x,
        _ => image,
    }
}

// puts the opposite in place of each incidence that is greater
fn keep_low(sum: Incidence, incidences: &mut Vec<Incidence>)
    ensures { incidences.new.items ≡ map (lesser sum) incidences.old.items }
{
    for i in 0..incidences.len() {
        incidences[i] = lesser(sum, incidences[i]);
    }
}

/// Adds the opposites, from the last on.
pub(crate) fn push_mirrors(
    sum: Incidence,
    incidences: &mut Vec<Incidence>,
) -> Result<(), OutOfMemory>
    ensures { OnOk result (incidences.new.items
        ≡ incidences.old.items ++ map (mirrored sum) (reverse incidences.old.items)) }
{
    let count = incidences.len();
    for i in 0..count {
        let image = mirrored(sum, incidences[count - 1 - i]);
        incidences.push(image)?;
    }
    Ok(())
}

/// The lesser of each incidence and its opposite, ascending and each once.
pub(crate) fn lesser_in_order(sum: Incidence, mut incidences: Vec<Incidence>) -> Vec<Incidence>
    ensures { Lists incidence_cmp (Contains (map (lesser sum) incidences.items)) result.items }
{
    keep_low(sum, &mut incidences);
    in_order(incidences)
}
