// Laws on the cells of directions. Each is a function that does nothing, and its contract is the law.
ghost use Rattle.std.specs.Prelude.{◌≡◌, ◌≢◌, List, Contains};
ghost use Rattle.staat_vec.specs.declared.vector.V3.{V3 as Vector};
ghost use Rattle.staat_vec.specs.declared.vector.Sign.{Sign as SignValue};
ghost use Rattle.staat_vec.specs.Vectors.{origin, plus};
ghost use Rattle.staat_vec.specs.Primitives.{primitive};
ghost use Rattle.staat_model.specs.declared.assembly.Part.{Part as PartValue};
ghost use Rattle.staat_model.specs.declared.set.PartSet.{PartSet as PartSetValue};
ghost use Rattle.staat_model.specs.declared.tree.Kind.{Kind as KindValue};
ghost use Rattle.staat_model.specs.declared.tree.Kind.TheVariants.{Edge, Open, Point};
ghost use Rattle.staat_model.specs.Planes.{ArePlanes, vertices};
ghost use Rattle.staat_model.specs.Cells.{IsBorder, IsCell, IsEdgeSum, IsRepresentative, kind_of, signs_of};
ghost use Rattle.staat_model.specs.Borders.{HasBorderVertex, HasTwoEdges};

/// Each cell has a vertex on its border, or is one.
pub fn vertex_on_border()
    ensures { (parts : List PartValue) (w : PartSetValue) (planes : List Vector) (d : Vector)
        → ArePlanes parts w planes
        → d ≢ origin → HasBorderVertex planes d }
{}

/// A direction on at least two planes of the set is a positive multiple of a vertex.
pub fn point_is_vertex()
    ensures { (parts : List PartValue) (w : PartSetValue) (planes : List Vector) (d : Vector)
        → ArePlanes parts w planes
        → d ≢ origin → kind_of (signs_of planes d) ≡ Point → Contains (vertices planes) (primitive d) }
{}

/// An edge has exactly two end vertices, whose sum is its representative.
pub fn edge_has_ends()
    ensures { (parts : List PartValue) (w : PartSetValue) (planes : List Vector) (s : List SignValue)
        → ArePlanes parts w planes → IsCell planes s → kind_of s ≡ Edge
        → (d : Vector) × IsEdgeSum planes s d }
{}

/// An open cell has two edges on its border.
pub fn open_cell()
    ensures { (parts : List PartValue) (w : PartSetValue) (planes : List Vector) (s : List SignValue)
        → ArePlanes parts w planes → IsCell planes s → kind_of s ≡ Open → HasTwoEdges planes s }
{}

/// Directions on two different edges on the border of a cell add up to a direction in the cell.
#[tactic(auto, using(crate::proofs::CellLemmas::edges_add_up_lemma))]
pub fn edges_add_up()
    ensures { (planes : List Vector) (s e f : List SignValue) (u v : Vector) → kind_of e ≡ Edge
        → kind_of f ≡ Edge
        → IsBorder e s → IsBorder f s → e ≢ f → signs_of planes u ≡ e → signs_of planes v ≡ f
        → signs_of planes (plus u v) ≡ s }
{}

/// The representative of a cell lies in the cell.
pub fn representative_in_cell()
    ensures { (parts : List PartValue) (w : PartSetValue) (planes : List Vector) (kind : KindValue)
        (s : List SignValue)
        (d : Vector) → ArePlanes parts w planes → IsCell planes s → kind_of s ≡ kind
        → IsRepresentative kind planes s d → signs_of planes d ≡ s }
{}
