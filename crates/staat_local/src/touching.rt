// Which pieces of the parts of a table touch.
ghost use Rattle.std.specs.Prelude.{◌≡◌, ◌≢◌, ◌<◌, ◌↔◌, ◌⊎◌, ℕ, IsTrue};
ghost use Rattle.staat_model.specs.Sets.{Has};
ghost use Rattle.staat_pairs.specs.Tables.{IsTableArc, WasMadeFrom, pieces_of};
ghost use Rattle.staat_local.specs.Touching.{AreMarks, LinksParts, IsFromPiece, IsPairMarked, IsToGreater, IsUpward};
ghost use Rattle.staat_local.specs.Touching.{MarksTouching};

use crate::pieces::touch;
use staat_limits::MOST_PARTS;
use staat_model::{Arc, Sound};
use staat_pairs::back;
use staat_planes::PlaneTable;

/// For each slot of an ordered pair of pieces whether it is marked.
pub(crate) type TouchMarks = [bool; 4096];

// marks a slot
fn mark(marks: &mut TouchMarks, slot: u32)
    requires { slot < 4096 }
    ensures { (s : ℕ) → IsPairMarked marks.new s ↔ (IsPairMarked marks.old s ⊎ (s ≡ slot)) }
{
    marks[slot as usize] = true;
}

// marks the pieces of an arc, both ways round, if they touch
fn mark_arc(marks: &mut TouchMarks, table: &PlaneTable, sound: &Sound, arc: Arc)
    requires made { WasMadeFrom sound.now table.now }
    requires across { IsTableArc table.now arc }
    ensures { MarksTouching sound.now table.now (λ x. x ≡ arc) marks.old marks.new }
{
    if touch(table, sound, arc) {
        mark(marks, table.slot(arc));
        mark(marks, table.slot(back(arc)));
    }
}

// marks those of a piece of the part a and a piece of the part b
fn mark_between(marks: &mut TouchMarks, table: &PlaneTable, sound: &Sound, a: u32, b: u32)
    requires made { WasMadeFrom sound.now table.now }
    requires a_in { Has table.now.of a }
    requires b_in { Has table.now.of b }
    requires different { a ≢ b }
    ensures { MarksTouching sound.now table.now (LinksParts a b (pieces_of table.now a)) marks.old marks.new }
{
    for i in 0..table.pieces(a) {
        for j in 0..table.pieces(b) {
            mark_arc(marks, table, sound, Arc { a, i, b, j });
        }
    }
}

/// Marks for the pairs of pieces of different parts of the table's set that touch. Each unordered pair is tested once.
pub(crate) fn touching(table: &PlaneTable, sound: &Sound) -> TouchMarks
    requires { WasMadeFrom sound.now table.now }
    ensures { AreMarks sound.now table.now result }
{
    let set = table.set();
    let mut marks = [false; 4096];
    for a in 0..MOST_PARTS {
        for b in 0..MOST_PARTS {
            if a < b && set.has(a) && set.has(b) {
                mark_between(&mut marks, table, sound, a, b);
            }
        }
    }
    marks
}
