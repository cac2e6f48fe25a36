// The incidences of edges: the open cells on whose border they are.
ghost use Rattle.std.specs.Prelude.{◌≡◌, ◌≤◌, ◌++◌, [], ◌∷◌, IfOk, List, OnOk, length, map};
ghost use Rattle.staat_model.specs.declared.tree.Kind.TheVariants.{Edge, Open};
ghost use Rattle.staat_model.specs.Cells.{AreCellsOf};
ghost use Rattle.staat_pairs.specs.Tables.{AreTablePlanes};
ghost use Rattle.staat_vec.specs.declared.vector.Sign.{Sign as SignValue};
ghost use Rattle.staat_vec.specs.declared.vector.Sign.TheVariants.{Neg, Pos};
ghost use Rattle.staat_vec.specs.Lists.{Lists};
ghost use Rattle.staat_cells.specs.Compositions.{entry_of};
ghost use Rattle.staat_cells.specs.Packing.{incidence_cmp, incidence_of};
ghost use Rattle.staat_cells.specs.Beside.{filled};
ghost use Rattle.staat_cells.specs.Stages.{HaveSigns, IsIncidence};

use crate::cell::Cell;
use crate::incidence::Incidence;
use crate::order::{lesser_in_order, mirror_sum, push_mirrors};
use crate::zero_signs::incidence_filled;
use staat_vec::{Normal, OutOfMemory, Sign};
use std::alloc::Global;

// adds both incidences of the edge with the number k, from one with its signs
fn push_both(own: Incidence, k: usize, incidences: &mut Vec<Incidence>) -> Result<(), OutOfMemory>
    ensures { OnOk result ((s : List SignValue) → own ≡ incidence_of s own.of
        → incidences.new.items ≡ (incidences.old.items ++ incidence_of (filled Neg s) k ∷ [])
        ++ incidence_of (filled Pos s) k ∷ []) }
{
    let base = Incidence { of: k, ..own };
    incidences.push(incidence_filled(base, Sign::Neg))?;
    incidences.push(incidence_filled(base, Sign::Pos))?;
    Ok(())
}

/// Both incidences of each edge, in their order, from those with the signs of the first half of the edges. They take
/// the place of what was listed: there is room for them where the ends of the edges were.
pub(crate) fn open_incidences(
    alloc: Global,
    planes: &[Normal],
    mut incidences: Vec<Incidence>,
    edges: &[Cell],
    own: &[Incidence],
) -> Result<Vec<Incidence>, OutOfMemory>
    requires planes { AreTablePlanes planes.now }
    requires few { length planes.now ≤ 256 }
    requires edges { AreCellsOf planes.now Edge (map entry_of edges.now) }
    requires own { HaveSigns (map entry_of edges.now) own.now }
    ensures { IfOk result (λ found. Lists incidence_cmp (IsIncidence planes.now Open (map entry_of edges.now))
        found.items) }
{
    let sum = mirror_sum(alloc, planes, edges.len())?;
    incidences.clear();
    for k in 0..edges.len() / 2 {
        push_both(own[k], k, &mut incidences)?;
    }
    let mut found = lesser_in_order(sum, incidences);
    push_mirrors(sum, &mut found)?;
    Ok(found)
}
