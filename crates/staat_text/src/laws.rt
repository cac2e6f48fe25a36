//! Laws on texts. Each is a function that does nothing, and its contract is the law.
ghost use Rattle.std.specs.Prelude.{◌≡◌, ◌↔◌, ◌<◌, ℕ, Bool, List};
ghost use Rattle.staat_vec.specs.declared.vector.V3.{V3 as Vector};
ghost use Rattle.staat_model.specs.declared.assembly.Part.{Part as PartValue};
ghost use Rattle.staat_model.specs.declared.set.PartSet.{PartSet as PartSetValue};
ghost use Rattle.staat_model.specs.Cells.{CellEntry};
ghost use Rattle.staat_model.specs.Plans.{IsGood, Plan};
ghost use Rattle.staat_model.specs.Sets.{Has, below};
ghost use Rattle.staat_graph.specs.Graphs.{HasArc};
ghost use Rattle.staat_pairs.specs.Tables.{Table};
ghost use Rattle.staat_text.specs.CellTexts.{IsCellsText, IsTextOfCells};
ghost use Rattle.staat_text.specs.GraphTexts.{IsGraphText};
ghost use Rattle.staat_text.specs.PlanTexts.{HasLeaves, IsPlanText};

use staat_limits::MOST_PARTS;

/// A graph has one text at a direction.
pub fn one_graph_text()
    ensures { (parts : ℕ) (d : Vector) (rows text other : List ℕ)
        → IsGraphText parts d rows text → IsGraphText parts d rows other → text ≡ other }
{}

/// Graphs with the same arcs among the parts have the same text.
pub fn same_graph_text()
    ensures { (parts : ℕ) (d : Vector) (rows others text other : List ℕ) →
        ((a b : ℕ) → Has (below parts) a → Has (below parts) b → HasArc rows a b ↔ HasArc others a b) →
        IsGraphText parts d rows text → IsGraphText parts d others other → text ≡ other }
{}

/// A set of parts has one plan text.
pub fn one_plan_text()
    ensures { (robust : Bool) (parts : List PartValue) (w : PartSetValue) (text other : List ℕ)
        → IsPlanText robust parts w text → IsPlanText robust parts w other → text ≡ other }
{}

/// A plan that takes parts of an assembly apart can be shown.
#[tactic(auto, using(crate::proofs::PlanSteps::good_leaves))]
pub fn good_plan_is_shown()
    ensures { (parts : List PartValue) (w : PartSetValue) (plan : Plan)
        → ((p : ℕ) → Has w p → p < MOST_PARTS) → IsGood parts w plan → HasLeaves plan }
{}

/// All cells of parts have one text.
pub fn one_cells_text()
    ensures { (parts : List PartValue) (n : ℕ) (text other : List ℕ)
        → IsCellsText parts n text → IsCellsText parts n other → text ≡ other }
{}

/// Any cells of a table have one text.
pub fn one_text_of_cells()
    ensures { (t : Table) (n : ℕ) (cells : List CellEntry) (text other : List ℕ)
        → IsTextOfCells t n cells text → IsTextOfCells t n cells other → text ≡ other }
{}
