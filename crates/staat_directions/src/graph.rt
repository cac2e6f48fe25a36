// The command `graph`: who blocks whom along a direction.
ghost use Rattle.std.specs.Prelude.{[]};
ghost use Rattle.staat_input.specs.Opened.{OpensSomeOf};
ghost use Rattle.staat_input.specs.declared.limits.TheConstants.Limits.{ASSEMBLY};
ghost use Rattle.staat_vec.specs.Vectors.{IsWithin};
ghost use Rattle.staat_words.specs.Requests.{IsGraphRequest};
ghost use Rattle.staat_directions.specs.Graphing.{IsCountedGraph, GraphWork};
ghost use Rattle.staat_input.specs.Causes.{HasCause};
ghost use Rattle.staat_input.specs.Taking.{DoesWork, IsWorkedOut};

use staat_edge::Shelf;
use staat_fault::Fault;
use staat_input::{Answer, read_sound, table_of};
use staat_limits::MOST_PLANES;
use staat_model::Sound;
use staat_text::graph_text;
use staat_vec::{DIRECTION, V3};
use staat_words::GraphRequest;
use std::alloc::Global;

// The answer for a sound assembly.
fn counted(alloc: Global, sound: &Sound, along: V3) -> Result<Answer, Fault>
    requires { IsWithin DIRECTION along }
    ensures { IsWorkedOut (IsCountedGraph along sound.now) result }
{
    let table = table_of(alloc, sound, MOST_PLANES)?;
    let parts = sound.assembly().parts();
    let text = graph_text(alloc, parts, along, &table.graph_at(along))?;
    Ok(Answer { status: 0, text })
}

/// The answer to the command `graph`: the arcs of the blocking graph along a direction, and its strong groups.
pub fn graph<H: Shelf>(
    alloc: Global,
    request: &GraphRequest,
    shelf: &mut H,
) -> Result<Answer, Fault>
    requires { IsGraphRequest request.now }
    ensures { DoesWork (GraphWork request.now) (OpensSomeOf ASSEMBLY request.now.asked.input []) HasCause
        (H.told shelf.old) (H.told shelf.new) result }
{
    let sound = read_sound(alloc, shelf, &request.asked)?;
    counted(alloc, &sound, request.along)
}
