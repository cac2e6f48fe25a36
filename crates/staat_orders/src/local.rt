// The command `local`: whether some side of the parts begins to move.
ghost use Rattle.std.specs.Prelude.{◌≡◌, ◌≤◌, ◌<◌, Some, IfSome};
ghost use Rattle.std.specs.Prelude.{[]};
ghost use Rattle.staat_input.specs.Opened.{OpensSomeOf};
ghost use Rattle.staat_input.specs.declared.limits.TheConstants.Limits.{ASSEMBLY};
ghost use Rattle.staat_limits.specs.declared.limits.TheConstants.{LEAST_PLANES, MOST_PLANES};
ghost use Rattle.staat_model.specs.Sets.{IsSide};
ghost use Rattle.staat_words.specs.Requests.{IsLocalRequest};
ghost use Rattle.staat_pairs.specs.Tables.{WasMadeFrom};
ghost use Rattle.staat_local.specs.Beginnings.{IsFoundIn};
ghost use Rattle.staat_orders.specs.Beginning.{IsCountedBeginning, local_status, LocalWork};
ghost use Rattle.staat_input.specs.Causes.{HasCause};
ghost use Rattle.staat_input.specs.Taking.{DoesWork, IsWorkedOut};

use staat_edge::Shelf;
use staat_fault::Fault;
use staat_input::{Answer, read_sound, table_of};
use staat_local::{Loose, local_step, local_text};
use staat_model::{PartSet, Sound};
use staat_planes::PlaneTable;
use staat_words::LocalRequest;
use std::alloc::Global;

// The side that begins to move: none of a part alone.
fn beginning(sound: &Sound, table: &PlaneTable) -> Option<Loose>
    requires made { WasMadeFrom sound.now table.now }
    ensures found { IsFoundIn sound.now table.now.of result }
    ensures side { IfSome result (λ loose. IsSide table.now.of loose.side) }
{
    if table.set().count() < 2 {
        None
    } else {
        local_step(table, sound)
    }
}

// 1 where no side of at least two parts begins to move.
fn status_of(of: PartSet, found: &Option<Loose>) -> u8
    ensures is { result ≡ local_status of found.now }
    ensures small { result < 2 }
{
    match found {
        Some(_) => 0,
        None => { if of.count() < 2 { 0 } else { 1 } }
    }
}

// The answer for a sound assembly that has at most so many planes.
fn counted(alloc: Global, sound: &Sound, planes: u32) -> Result<Answer, Fault>
    requires least { LEAST_PLANES ≤ planes }
    requires most { planes ≤ MOST_PLANES }
    ensures { IsWorkedOut (IsCountedBeginning planes sound.now) result }
{
    let table = table_of(alloc, sound, planes)?;
    let of = table.set();
    let found = beginning(sound, &table);
    let text = local_text(alloc, of, &found)?;
    Ok(Answer {
        status: status_of(of, &found),
        text,
    })
}

/// The answer to the command `local`: the side of all parts that begins to move, or that none does.
pub fn local<H: Shelf>(
    alloc: Global,
    request: &LocalRequest,
    shelf: &mut H,
) -> Result<Answer, Fault>
    requires { IsLocalRequest request.now }
    ensures { DoesWork (LocalWork request.now) (OpensSomeOf ASSEMBLY request.now.asked.input []) HasCause
        (H.told shelf.old) (H.told shelf.new) result }
{
    let sound = read_sound(alloc, shelf, &request.asked)?;
    counted(alloc, &sound, request.planes)
}
