// The arcs of a graph on at most 32 parts, each on a line of its own or all on one.
ghost use Rattle.std.specs.Prelude.{◌≡◌, ◌<◌, ◌≤◌, ◌++◌, IfOk, codes, decimal, flat_map};
ghost use Rattle.staat_text.specs.CellTexts.{arc_in, short_arc};
ghost use Rattle.staat_text.specs.GraphTexts.{arcs_from, arcs_of};

use crate::rows::push_arc;
use staat_graph::Graph;
use staat_limits::MOST_PARTS;
use std::alloc::AllocError;

/// How an arc is written.
#[derive(Clone, Copy, Drop)]
pub(crate) enum ArcForm {
    /// `arc A B` and the end of the line
    Line,
    /// ` A>B`
    Short,
}

// Adds a digit.
#[tactic(auto, using(crate::proofs::Digits::one_digit))]
fn push_digit(text: &mut Vec<u8>, d: u32) -> Result<(), AllocError>
    requires { d < 10 }
    ensures { IfOk result (λ _. text.new.items ≡ text.old.items ++ decimal d) }
{
    text.push(b'0' + (d % 10) as u8)?;
    Ok(())
}

// Adds the number of a part, which has one digit or two.
#[tactic(auto, using(crate::proofs::Digits::one_digit_more))]
fn push_part(text: &mut Vec<u8>, a: u32) -> Result<(), AllocError>
    requires { a < MOST_PARTS }
    ensures { IfOk result (λ _. text.new.items ≡ text.old.items ++ decimal a) }
{
    if a < 10 {
        return push_digit(text, a);
    }
    push_digit(text, a / 10)?;
    text.push(b'0' + (a % 10) as u8)?;
    Ok(())
}

// Adds the short form of the arc from a to b.
fn push_short(text: &mut Vec<u8>, a: u32, b: u32) -> Result<(), AllocError>
    requires a { a < MOST_PARTS }
    requires b { b < MOST_PARTS }
    ensures { IfOk result (λ _. text.new.items ≡ text.old.items ++ short_arc (a, b)) }
{
    text.push(b' ')?;
    push_part(text, a)?;
    text.push(b'>')?;
    push_part(text, b)
}

// Adds the arc from a to b.
fn push_in(text: &mut Vec<u8>, a: u32, b: u32, form: ArcForm) -> Result<(), AllocError>
    requires a { a < MOST_PARTS }
    requires b { b < MOST_PARTS }
    ensures { IfOk result (λ _. text.new.items ≡ text.old.items ++ arc_in form (a, b)) }
{
    match form {
        ArcForm::Line => push_arc(text, a, b),
        ArcForm::Short => push_short(text, a, b),
    }
}

// Adds the arcs from the part a to parts below `parts`.
fn push_arcs_of(
    text: &mut Vec<u8>,
    g: &Graph,
    parts: u32,
    a: u32,
    form: ArcForm,
) -> Result<(), AllocError>
    requires parts { parts ≤ MOST_PARTS }
    requires from { a < MOST_PARTS }
    ensures { IfOk result (λ _. text.new.items
        ≡ text.old.items ++ flat_map (arc_in form) (arcs_from g.now.rows parts a)) }
{
    let targets = g.arcs_from(a);
    for b in 0..parts {
        if targets.has(b) {
            push_in(text, a, b, form)?;
        }
    }
    Ok(())
}

/// Adds the arcs among the parts below `parts`.
pub(crate) fn push_arcs_among(
    text: &mut Vec<u8>,
    g: &Graph,
    parts: u32,
    form: ArcForm,
) -> Result<(), AllocError>
    requires { parts ≤ MOST_PARTS }
    ensures { IfOk result (λ _. text.new.items
        ≡ text.old.items ++ flat_map (arc_in form) (arcs_of g.now.rows parts)) }
{
    for a in 0..parts {
        push_arcs_of(text, g, parts, a, form)?;
    }
    Ok(())
}
