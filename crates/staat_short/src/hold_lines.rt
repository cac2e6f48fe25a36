// The lines of holds, one by one.
ghost use Rattle.std.specs.Prelude.{◌≡◌, ◌++◌, ◌∷◌, [], ℕ, IfOk, None};
ghost use Rattle.std.specs.Ordering.{is_lt, nat_cmp};
ghost use Rattle.staat_model.specs.Certificates.{arc_cmp};
ghost use Rattle.staat_cert.specs.Machine.{follows};
ghost use Rattle.staat_cert.specs.TextLines.{MakesState};
ghost use Rattle.staat_short.specs.Fronts.{after_hold, after_pair, after_part, holds_in};
ghost use Rattle.staat_short.specs.ShortViews.{HoldGoesOn, front_of, hold_of, holding_of, last_hold};

use crate::stage::{Holding, OpenHold, Stage};
use staat_cert::is_arc_below;
use staat_holds::Hold;
use staat_model::Arc;
use staat_vec::Listed;
use std::alloc::{AllocError, Global};

fn is_part_below(p: u32, q: u32) -> bool
    ensures { result ≡ is_lt (nat_cmp p q) }
{
    p < q
}

fn part_follows(nodes: &[u32], p: u32) -> bool
    ensures { result ≡ follows nat_cmp nodes.now p }
{
    match nodes {
        [] => true,
        [.., last] => is_part_below(*last, p),
    }
}

fn pair_follows(pairs: &[Arc], pair: Arc) -> bool
    ensures { result ≡ follows arc_cmp pairs.now pair }
{
    match pairs {
        [] => true,
        [.., last] => is_arc_below(*last, pair),
    }
}

// The last hold joins the others.
fn push_hold(holds: &mut Vec<Hold>, hold: OpenHold) -> Result<(), AllocError>
    ensures { IfOk result (λ _. holds.new.items ≡ holds.old.items ++ hold_of hold ∷ []) }
{
    let OpenHold { nodes, pairs } = hold;
    holds.push(Hold {
        nodes: Listed::from_vec(nodes),
        pairs: Listed::from_vec(pairs),
    })?;
    Ok(())
}

/// Closes the last hold.
pub fn close_hold(holding: &mut Holding) -> Result<(), AllocError>
    ensures holds { IfOk result (λ _. holding.new.holds.items
        ≡ holds_in holding.old.holds.items (last_hold holding.old.last)) }
    ensures none { IfOk result (λ _. holding.new.last ≡ None) }
    ensures place { holding.new.place ≡ holding.old.place }
{
    match holding.last.take() {
        None => Ok(()),
        Some(hold) => push_hold(&mut holding.holds, hold),
    }
}

// A hold more.
fn begin_hold(alloc: Global, holding: &mut Holding) -> Result<bool, AllocError>
    ensures { IfOk result (λ b. (n : ℕ) →
        MakesState (after_hold (holding_of n holding.old)) b (holding_of n holding.new)) }
{
    close_hold(holding)?;
    holding.last = Some(OpenHold {
        nodes: Vec::new(alloc),
        pairs: Vec::new(alloc),
    });
    Ok(true)
}

pub fn hold(alloc: Global, stage: &mut Stage) -> Result<bool, AllocError>
    ensures { IfOk result (λ b. MakesState (after_hold (front_of stage.old)) b (front_of stage.new)) }
{
    match stage {
        Stage::Holding { holding, .. } => begin_hold(alloc, holding),
        _ => Ok(false),
    }
}

// A node of the last hold.
fn take_part(hold: &mut OpenHold, p: u32) -> Result<bool, AllocError>
    ensures { IfOk result (λ b. HoldGoesOn (λ s. after_part s p) hold.old b hold.new) }
{
    if !hold.pairs.is_empty() || !part_follows(hold.nodes.as_slice(), p) {
        return Ok(false);
    }
    hold.nodes.push(p)?;
    Ok(true)
}

// A pair of the last hold.
fn take_pair(hold: &mut OpenHold, pair: Arc) -> Result<bool, AllocError>
    ensures { IfOk result (λ b. HoldGoesOn (λ s. after_pair s pair) hold.old b hold.new) }
{
    if !pair_follows(hold.pairs.as_slice(), pair) {
        return Ok(false);
    }
    hold.pairs.push(pair)?;
    Ok(true)
}

pub fn part(stage: &mut Stage, p: u32) -> Result<bool, AllocError>
    ensures { IfOk result (λ b. MakesState (after_part (front_of stage.old) p) b (front_of stage.new)) }
{
    match stage {
        Stage::Holding { holding, .. } => match &mut holding.last {
            None => Ok(false),
            Some(hold) => take_part(hold, p),
        },
        _ => Ok(false),
    }
}

pub fn pair(stage: &mut Stage, pair: Arc) -> Result<bool, AllocError>
    ensures { IfOk result (λ b. MakesState (after_pair (front_of stage.old) pair) b (front_of stage.new)) }
{
    match stage {
        Stage::Holding { holding, .. } => match &mut holding.last {
            None => Ok(false),
            Some(hold) => take_pair(hold, pair),
        },
        _ => Ok(false),
    }
}
