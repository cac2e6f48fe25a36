//! Laws over the definitions. Each is a function that does nothing, and its contract is the law.
ghost use Rattle.std.specs.Prelude.{List};
ghost use Rattle.staat_vec.specs.declared.vector.V3.{V3 as Vector};
ghost use Rattle.staat_model.specs.Pieces.{IsPiece};
ghost use Rattle.staat_model.specs.Meeting.{Meets};
ghost use Rattle.staat_model.specs.Walls.{IsShown};

pub use crate::cell_laws::{
    edge_has_ends, edges_add_up, open_cell, point_is_vertex, representative_in_cell,
    vertex_on_border,
};
pub use crate::cone_laws::{
    combine, corner, differences_span, facet_is_crossing, farkas, one_primitive, reached_by_facets,
    two_borders, weights_and_numbers,
};
pub use crate::core_laws::{
    core_holds, core_holds_on_plane, free_at_crossing, free_at_vertex, nodes_hold_on_plane,
    nodes_stick, stuck_moves_whole,
};
pub use crate::one_laws::{
    no_reason_if_valid, one_certificate, one_outcome, one_reading, one_reason, one_spelling,
    one_verdict, some_verdict,
};
pub use crate::piece_laws::{
    blocked_by_facets, boxes_part, facets_from_differences, facets_of_differences, opposite_facets,
    opposite_meeting, overlap_by_facets, shadows_part, wall_parts,
};
pub use crate::plan_laws::{
    certificates_are_valid, graph_of_cell, graph_on_border, leave_in_turn, opposite_graph,
    plan_is_right, plans_in_turn, refusal_is_right, restrict, stuck_at_vertices, vertices_decide,
};

/// A wall that shows a piece apart from a list of points along a direction keeps them apart for ever: the piece
/// never meets what the points span.
pub fn wall_keeps_apart()
    ensures { (p q : List Vector) (d n : Vector) → IsPiece p → IsShown p q d n → Meets p q d → ⊥ }
{}
