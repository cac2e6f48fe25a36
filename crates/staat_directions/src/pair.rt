// The command `pair`: whether a wall shows that one piece never meets another.
ghost use Rattle.std.specs.Prelude.{◌≡◌, ◌≤◌, ◌<◌, ◌↔◌, ◌≤ℤ◌, pos};
ghost use Rattle.std.specs.Prelude.{IsTrue, IfOk, IfErr, false};
ghost use Rattle.std.specs.Prelude.{◌∷◌, []};
ghost use Rattle.staat_edge.specs.Opening.{OpensFiles};
ghost use Rattle.staat_fault.specs.declared.fault.Fault.TheVariants.{OutOfMemory};
ghost use Rattle.staat_vec.specs.Vectors.{IsWithin, dot};
ghost use Rattle.staat_model.specs.Walls.{IsShown};
ghost use Rattle.staat_words.specs.Requests.{IsPairRequest};
ghost use Rattle.staat_input.specs.Work.{Follows};
ghost use Rattle.staat_directions.specs.Pairs.{IsJudged, PairWork};
ghost use Rattle.staat_input.specs.Causes.{HasCause, ShelfSide};
ghost use Rattle.staat_input.specs.Taking.{DoesWork};

use staat_cone::separates;
use staat_edge::Shelf;
use staat_fault::Fault;
use staat_input::{Answer, read_piece};
use staat_model::Piece;
use staat_vec::{Bytes, DIRECTION, NORMAL, V3, dot};
use staat_words::PairRequest;
use std::alloc::Global;

// The answer with this status and this text.
fn answer(alloc: Global, status: u8, text: &[u8]) -> Result<Answer, Fault>
    ensures status { IfOk result (λ a. a.status ≡ status) }
    ensures text { IfOk result (λ a. a.text ≡ text.now) }
    ensures memory { IfErr result (λ fault. fault ≡ OutOfMemory) }
{
    Ok(Answer {
        status,
        text: Bytes::from_vec(text.to_vec(alloc)?),
    })
}

// Whether d does not lead through the wall with the normal n.
fn leads_away(n: V3, d: V3) -> bool
    requires n { IsWithin NORMAL n }
    requires d { IsWithin DIRECTION d }
    ensures { IsTrue result ↔ (dot n d ≤ℤ pos 0) }
{
    dot(n, d) <= 0
}

// Whether the wall with the normal n shows that p, moved along d, never meets q.
fn is_shown(p: &Piece, q: &Piece, d: V3, n: V3) -> bool
    requires n { IsWithin NORMAL n }
    requires d { IsWithin DIRECTION d }
    ensures { IsTrue result ↔ IsShown p.now q.now d n }
{
    leads_away(n, d) && separates(n, p, q)
}

// The answer for two pieces.
#[tactic(auto, using(crate::proofs::PairLemmas::judged))]
fn judge(alloc: Global, p: &Piece, q: &Piece, along: V3, wall: V3) -> Result<Answer, Fault>
    requires along { IsWithin DIRECTION along }
    requires wall { IsWithin NORMAL wall }
    ensures status { IfOk result (λ a. a.status < 2) }
    ensures judged { Follows (IsJudged p.now q.now along wall) result }
    ensures cause { (shelf : ShelfSide) → IfErr result (HasCause shelf) }
{
    if is_shown(p, q, along, wall) {
        answer(alloc, 0, b"free\n")
    } else {
        answer(alloc, 1, b"not shown\n")
    }
}

/// The answer to the command `pair`: whether the wall shows that the piece of the first file, moved along the
/// direction, never meets that of the second. The first file is read and judged before the second.
pub fn pair<H: Shelf>(alloc: Global, request: &PairRequest, shelf: &mut H) -> Result<Answer, Fault>
    requires { IsPairRequest request.now }
    ensures { DoesWork (PairWork request.now) (OpensFiles false (request.now.first ∷ request.now.second ∷ []))
        HasCause (H.told shelf.old) (H.told shelf.new) result }
{
    let p = read_piece(alloc, request.digits, shelf, &request.first)?;
    let q = read_piece(alloc, request.digits, shelf, &request.second)?;
    judge(alloc, &p, &q, request.along, request.wall)
}
