// The call that does all that the program does.
ghost use Rattle.std.specs.Prelude.{◌≡◌, ◌≢◌, ◌⊎◌, ◌<◌, ◌≤◌, Some, None};
ghost use Rattle.std.specs.Prelude.{IfOk, IfErr, IsErrAnd, map, string_bytes};
ghost use Rattle.staat_words.specs.Requests.{HasBounds, request};
ghost use Rattle.staat_fault.specs.declared.fault.Fault.TheVariants as faults;
ghost use Rattle.staat_input.specs.Taking.{DoesWork};
ghost use Rattle.staat_top.specs.Opened.{OpensRequest, OpensWork};
ghost use Rattle.staat_top.specs.Replies.{WorkOn};
ghost use Rattle.staat_top.specs.Runs.{HasRequestBounds, HasRequestCause, IsExplained, IsFound, Ran};
ghost use Rattle.staat_input.specs.Causes.{over};

use crate::print::{print, refuse};
use staat_deciding::blocks::blocks;
use staat_deciding::decide::decide;
use staat_directions::cells::cells;
use staat_directions::graph::graph;
use staat_directions::look::look;
use staat_directions::pair::pair;
use staat_edge::{Shelf, Sink};
use staat_fault::Fault;
use staat_input::Answer;
use staat_judging::check::check;
use staat_judging::confirm::confirm;
use staat_orders::linear::linear;
use staat_orders::local::local;
use staat_planning::drill::drill;
use staat_planning::explode::explode;
use staat_planning::plan::plan;
use staat_words::{Request, RequestRefusal, request_of};
use std::alloc::Global;

// The work on a request: a line for each command.
fn work<H: Shelf>(alloc: Global, request: &Request, shelf: &mut H) -> Result<Answer, Fault>
    requires { HasBounds request.now }
    ensures { DoesWork (WorkOn request.now) (OpensRequest request.now) (HasRequestCause request.now)
        (H.told shelf.old) (H.told shelf.new) result }
{
    match request {
        Request::Pair(request) => pair(alloc, request, shelf),
        Request::Look(asked) => look(alloc, asked, shelf),
        Request::Graph(request) => graph(alloc, request, shelf),
        Request::Plan(request) => plan(alloc, request, shelf),
        Request::Check(request) => check(alloc, request, shelf),
        Request::Cells(request) => cells(alloc, request, shelf),
        Request::Drill(product) => drill(alloc, *product),
        Request::Explode(request) => explode(alloc, request, shelf),
        Request::Linear(request) => linear(alloc, request, shelf),
        Request::Local(request) => local(alloc, request, shelf),
        Request::Decide(request) => decide(alloc, request, shelf),
        Request::Confirm(request) => confirm(alloc, request, shelf),
        Request::Blocks(request) => blocks(alloc, request, shelf),
    }
}

// The answer to the words, over the files of the shelf.
#[tactic(auto, using(crate::proofs::TopLemmas::worked))]
fn answer_to<H: Shelf>(alloc: Global, words: &Vec<String>, shelf: &mut H) -> Result<Answer, Fault>
    ensures holds { (H.told shelf.new).holds ≡ (H.told shelf.old).holds }
    ensures count { (H.told shelf.old).faults ≤ (H.told shelf.new).faults }
    ensures status { IfOk result (λ a. a.status < 2) }
    ensures opens { OpensWork (request (map string_bytes words.now.items)) (H.told shelf.old) (H.told shelf.new) }
    ensures found { IfOk result (λ a. IsFound (request (map string_bytes words.now.items))
        (over (H.told shelf.old) (H.told shelf.new)) (Ok a)) }
    ensures explained { IfErr result (IsExplained (request (map string_bytes words.now.items))
        (over (H.told shelf.old) (H.told shelf.new))) }
    ensures bounds { IfOk result (λ _. HasRequestBounds (request (map string_bytes words.now.items))) }
    ensures fault_bounds { IfErr result (λ f. f ≢ faults.OutOfMemory →
        HasRequestBounds (request (map string_bytes words.now.items))) }
    ensures usage { request (map string_bytes words.now.items) ≡ None →
        IsErrAnd result (λ f. (f ≡ faults.Usage) ⊎ (f ≡ faults.OutOfMemory)) }
{
    match request_of(alloc, words) {
        Ok(request) => work(alloc, &request, shelf),
        Err(RequestRefusal::Usage) => Err(Fault::Usage),
        Err(RequestRefusal::OutOfMemory) => Err(Fault::OutOfMemory),
    }
}

/// Does what the words after the program's name ask for, over the files of the shelf.
///
/// It prints an answer's text on `out` (status 0 or 1), or a fault's line on `err` (status 2 to 7). Each text is
/// built whole before its first byte is written.
pub fn staat<H: Shelf, O: Sink, E: Sink>(
    alloc: Global,
    words: &Vec<String>,
    shelf: &mut H,
    out: &mut O,
    err: &mut E,
) -> u8
    ensures range { result ≤ 7 }
    ensures holds { (H.told shelf.new).holds ≡ (H.told shelf.old).holds }
    ensures shelf_count { (H.told shelf.old).faults ≤ (H.told shelf.new).faults }
    ensures out_count { (O.told out.old).faults ≤ (O.told out.new).faults }
    ensures err_count { (E.told err.old).faults ≤ (E.told err.new).faults }
    ensures ran { Ran (request (map string_bytes words.now.items)) (over (H.told shelf.old) (H.told shelf.new))
        (over (O.told out.old) (O.told out.new)) (over (E.told err.old) (E.told err.new)) result }
{
    match answer_to(alloc, words, shelf) {
        Ok(answer) => print(&answer, out, err),
        Err(fault) => refuse(alloc, &fault, err),
    }
}
