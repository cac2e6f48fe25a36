// What the witnesses ask of directions: the facets of their arcs, by their numbers, each once.
ghost use Rattle.std.specs.Prelude.{◌≡◌, ◌<◌, ◌++◌, ◌↔◌, ℕ};
ghost use Rattle.std.specs.Prelude.{All, Contains, IfOk, OnOk, Some, flat_map, length, map, slice_get};
ghost use Rattle.staat_vec.specs.Primitives.{canon};
ghost use Rattle.staat_vec.specs.Vectors.{negative};
ghost use Rattle.staat_pairs.specs.Tables.{IsTableArc, IsTableFacet, facets_of};
ghost use Rattle.staat_check.specs.Conditions.{AddsNumbers, AreConditions, AreLists, IsAcrossAll};
ghost use Rattle.staat_check.specs.Conditions.{asked_facets, both_sides, turned_all, turned_if};

use staat_model::{Arc, Witness};
use staat_pairs::{FacetTable, back};
use staat_vec::{Listed, Normal, OutOfMemory, V3, canon, is_same, neg};
use std::alloc::Global;

/// The normals of both sides of planes: those of the planes, and then their opposites in the same order.
pub fn both_normals(alloc: Global, planes: &[Normal]) -> Result<Vec<Normal>, OutOfMemory>
    ensures { IfOk result (λ normals. normals.items ≡ both_sides planes.now) }
{
    let mut normals = Vec::new(alloc);
    normals.extend_from_slice(planes)?;
    for n in planes {
        normals.push(Normal::of(neg(n.vector())))?;
    }
    Ok(normals)
}

// the number, among the normals of both sides, of a facet on the plane k, or of its opposite
fn number_of(planes: &[Normal], k: usize, facet: V3, turned: bool) -> usize
    requires facet { IsTableFacet planes.now facet }
    requires plane { slice_get planes.now k ≡ Some (canon facet) }
    ensures { slice_get (both_sides planes.now) result ≡ Some (turned_if turned facet) }
{
    let ahead = is_same(canon(facet), facet);
    if ahead == turned { planes.len() + k } else { k }
}

// adds the numbers of the facets of two pieces, that of the lesser part first, or of their opposites
fn push_facets(
    table: &FacetTable,
    arc: Arc,
    turned: bool,
    numbers: &mut Vec<usize>,
) -> Result<(), OutOfMemory>
    requires across { IsTableArc table.now arc }
    requires order { arc.a < arc.b }
    ensures { OnOk result (AddsNumbers (both_sides table.now.planes) (turned_all turned (facets_of table.now arc))
        numbers.old.items numbers.new.items) }
{
    let facets = table.kept_facets(arc);
    for (m, facet) in facets.iter().enumerate() {
        let k = table.kept_number(arc, m);
        numbers.push(number_of(table.planes(), k, facet.vector(), turned))?;
    }
    Ok(())
}

// adds the numbers of the facets of the two pieces of an arc
fn push_arc(table: &FacetTable, arc: Arc, numbers: &mut Vec<usize>) -> Result<(), OutOfMemory>
    requires { IsTableArc table.now arc }
    ensures { OnOk result (AddsNumbers (both_sides table.now.planes) (facets_of table.now arc)
        numbers.old.items numbers.new.items) }
{
    if arc.a < arc.b {
        push_facets(table, arc, false, numbers)
    } else {
        push_facets(table, back(arc), true, numbers)
    }
}

// adds those of all arcs
fn push_arcs(table: &FacetTable, arcs: &[Arc], numbers: &mut Vec<usize>) -> Result<(), OutOfMemory>
    requires { All (IsTableArc table.now) arcs.now }
    ensures { OnOk result (AddsNumbers (both_sides table.now.planes) (flat_map (facets_of table.now) arcs.now)
        numbers.old.items numbers.new.items) }
{
    for arc in arcs {
        push_arc(table, *arc, numbers)?;
    }
    Ok(())
}

// adds those of all arcs of a witness
fn push_witness(
    table: &FacetTable,
    witness: &Witness,
    numbers: &mut Vec<usize>,
) -> Result<(), OutOfMemory>
    requires { IsAcrossAll table.now witness.now }
    ensures { OnOk result (AddsNumbers (both_sides table.now.planes) (asked_facets table.now witness.now)
        numbers.old.items numbers.new.items) }
{
    push_arcs(table, witness.outs.as_slice(), numbers)?;
    push_arcs(table, witness.ins.as_slice(), numbers)
}

// the numbers, each once
fn each_once(mut numbers: Vec<usize>) -> Listed<usize>
    ensures { (k : ℕ) → Contains result k ↔ Contains numbers.items k }
{
    numbers.sort_unstable();
    numbers.dedup();
    Listed::from_vec(numbers)
}

// the numbers of the facets of all arcs of a witness, each once
fn conditions(
    alloc: Global,
    table: &FacetTable,
    witness: &Witness,
) -> Result<Listed<usize>, OutOfMemory>
    requires { IsAcrossAll table.now witness.now }
    ensures { IfOk result (AreConditions table.now (both_sides table.now.planes) witness.now) }
{
    let mut numbers = Vec::new(alloc);
    push_witness(table, witness, &mut numbers)?;
    Ok(each_once(numbers))
}

/// For each witness the numbers of the facets of its arcs among the normals of both sides of the planes, each once.
pub fn all_conditions(
    alloc: Global,
    table: &FacetTable,
    witnesses: &[Witness],
) -> Result<Vec<Listed<usize>>, OutOfMemory>
    requires { All (IsAcrossAll table.now) witnesses.now }
    ensures { IfOk result (λ lists. AreLists table.now (both_sides table.now.planes) witnesses.now
        (length witnesses.now) lists.items) }
{
    let mut lists = Vec::new(alloc);
    for witness in witnesses {
        lists.push(conditions(alloc, table, witness)?)?;
    }
    Ok(lists)
}
