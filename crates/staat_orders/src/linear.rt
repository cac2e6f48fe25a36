// The command `linear`: in what order the parts are taken away, one at a time.
ghost use Rattle.std.specs.Prelude.{◌≡◌, ◌≤◌, ◌<◌, IfOk, IfErr};
ghost use Rattle.std.specs.Prelude.{[]};
ghost use Rattle.staat_fault.specs.declared.fault.Fault.TheVariants.{OutOfMemory};
ghost use Rattle.staat_input.specs.Opened.{OpensSomeOf};
ghost use Rattle.staat_input.specs.declared.limits.TheConstants.Limits.{ASSEMBLY};
ghost use Rattle.staat_limits.specs.declared.limits.TheConstants.{LEAST_PLANES, MOST_PLANES};
ghost use Rattle.staat_linear.specs.Orders.{HasTableWithin, IsChosen};
ghost use Rattle.staat_words.specs.Requests.{IsLinearRequest};
ghost use Rattle.staat_input.specs.Work.{Follows};
ghost use Rattle.staat_input.specs.Counting.{AreCounted, all_parts};
ghost use Rattle.staat_orders.specs.Ordering.{IsCountedOrder, order_answer, LinearWork};
ghost use Rattle.staat_input.specs.Causes.{HasCause, ShelfSide};
ghost use Rattle.staat_input.specs.Taking.{DoesWork, IsWorkedOut};

use staat_cone::Scan;
use staat_edge::Shelf;
use staat_fault::Fault;
use staat_input::{Answer, planes_fault, read_sound};
use staat_linear::{Order, linear_text};
use staat_model::Sound;
use staat_words::LinearRequest;
use std::alloc::Global;

// The order of an assembly that has at most so many planes.
#[tactic(auto, using(staat_input::proofs::CountingLemmas::counting))]
fn order_of(alloc: Global, sound: &Sound, planes: u32) -> Result<Order, Fault>
    requires least { LEAST_PLANES ≤ planes }
    requires most { planes ≤ MOST_PLANES }
    ensures chosen { IfOk result (IsChosen sound.now (all_parts sound.now)) }
    ensures few { IfOk result (λ _. HasTableWithin sound.now (all_parts sound.now) planes) }
    ensures refused { IfErr result (λ fault. Follows (AreCounted sound.now planes) (Err fault)) }
    ensures cause { (shelf : ShelfSide) → IfErr result (HasCause shelf) }
{
    match staat_linear::linear(alloc, &Scan, sound, planes) {
        Ok(order) => Ok(order),
        Err(refusal) => Err(planes_fault(refusal)),
    }
}

// The answer for an order.
fn answer_of(alloc: Global, order: &Order) -> Result<Answer, Fault>
    ensures status { IfOk result (λ a. a.status < 2) }
    ensures is { IfOk result (λ a. a ≡ order_answer order.now) }
    ensures memory { IfErr result (λ fault. fault ≡ OutOfMemory) }
{
    let text = linear_text(alloc, order)?;
    match order {
        Order::Whole { .. } => Ok(Answer { status: 0, text }),
        Order::Locked(_) => Ok(Answer { status: 1, text }),
    }
}

// The answer for a sound assembly that has at most so many planes.
fn counted(alloc: Global, sound: &Sound, planes: u32) -> Result<Answer, Fault>
    requires least { LEAST_PLANES ≤ planes }
    requires most { planes ≤ MOST_PLANES }
    ensures { IsWorkedOut (IsCountedOrder planes sound.now) result }
{
    let order = order_of(alloc, sound, planes)?;
    answer_of(alloc, &order)
}

/// The answer to the command `linear`: the order in which the parts are taken away, one at a time, each free of all
/// that are left; or the parts of which none can be taken away.
pub fn linear<H: Shelf>(
    alloc: Global,
    request: &LinearRequest,
    shelf: &mut H,
) -> Result<Answer, Fault>
    requires { IsLinearRequest request.now }
    ensures { DoesWork (LinearWork request.now) (OpensSomeOf ASSEMBLY request.now.asked.input []) HasCause
        (H.told shelf.old) (H.told shelf.new) result }
{
    let sound = read_sound(alloc, shelf, &request.asked)?;
    counted(alloc, &sound, request.planes)
}
