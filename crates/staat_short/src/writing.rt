// The lines of a short certificate, written.
ghost use Rattle.std.specs.Prelude.{◌∷◌, [], IfOk, map, flat_map};
ghost use Rattle.staat_short.specs.ShortTexts.{
  IsShortInOrder,
  lines_of_answer,
  lines_of_hold,
  lines_of_short_node,
  short_lines,
};
ghost use Rattle.staat_short.specs.declared.line.ShortLine.TheVariants as line;
ghost use Rattle.staat_short.specs.ShortWriting.{AddsShortLines, IsShortTextAnswer};

use crate::line::ShortLine;
use crate::short::{ShortAnswer, ShortCertificate, ShortNode};
use staat_cert::LineWriter;
use staat_holds::Hold;
use staat_model::TextRefusal;
use staat_vec::Bytes;
use std::alloc::{AllocError, Global};

fn add_line(w: &mut LineWriter, next: ShortLine) -> Result<(), AllocError>
    ensures { IfOk result (λ _. AddsShortLines w.old w.new (next ∷ [])) }
{
    match next {
        ShortLine::Title => w.add_row(b"STAAT SHORT 1", &[]),
        ShortLine::Parts(n) => w.add_natural(b"parts", n),
        ShortLine::Plan => w.add_row(b"plan", &[]),
        ShortLine::Stuck => w.add_row(b"stuck", &[]),
        ShortLine::Rest => w.add_row(b"rest", &[]),
        ShortLine::Split(d) => w.add_row(b"split", &[d.x, d.y, d.z]),
        ShortLine::Leaf(p) => w.add_natural(b"leaf", p),
        ShortLine::Group => w.add_row(b"group", &[]),
        ShortLine::Hold => w.add_row(b"hold", &[]),
        ShortLine::Part(p) => w.add_natural(b"part", p),
        ShortLine::Pair(pair) => w.add_arc(b"pair", pair),
        ShortLine::End => w.add_row(b"end", &[]),
    }
}

fn add_parts(w: &mut LineWriter, parts: &[u32]) -> Result<(), AllocError>
    ensures { IfOk result (λ _. AddsShortLines w.old w.new (map line.Part parts.now)) }
{
    'parts: for p in parts {
        add_line(w, ShortLine::Part(*p))?;
    }
    Ok(())
}

fn add_hold(w: &mut LineWriter, hold: &Hold) -> Result<(), AllocError>
    ensures { IfOk result (λ _. AddsShortLines w.old w.new (lines_of_hold hold.now)) }
{
    add_line(w, ShortLine::Hold)?;
    add_parts(w, hold.nodes.as_slice())?;
    w.add_arcs(b"pair".as_slice(), hold.pairs.as_slice())
}

fn add_holds(w: &mut LineWriter, holds: &[Hold]) -> Result<(), AllocError>
    ensures { IfOk result (λ _. AddsShortLines w.old w.new (flat_map lines_of_hold holds.now)) }
{
    'holds: for hold in holds {
        add_hold(w, hold)?;
    }
    Ok(())
}

fn add_group(w: &mut LineWriter, holds: &[Hold]) -> Result<(), AllocError>
    ensures { IfOk result (λ _. AddsShortLines w.old w.new (line.Group ∷ flat_map lines_of_hold holds.now)) }
{
    add_line(w, ShortLine::Group)?;
    add_holds(w, holds)
}

fn add_node(w: &mut LineWriter, node: &ShortNode) -> Result<(), AllocError>
    ensures { IfOk result (λ _. AddsShortLines w.old w.new (lines_of_short_node node.now)) }
{
    match node {
        ShortNode::Leaf(p) => add_line(w, ShortLine::Leaf(*p)),
        ShortNode::Split(d) => add_line(w, ShortLine::Split(*d)),
        ShortNode::Group(holds) => add_group(w, holds.as_slice()),
    }
}

fn add_nodes(w: &mut LineWriter, nodes: &[ShortNode]) -> Result<(), AllocError>
    ensures { IfOk result (λ _. AddsShortLines w.old w.new (flat_map lines_of_short_node nodes.now)) }
{
    'nodes: for node in nodes {
        add_node(w, node)?;
    }
    Ok(())
}

// The line that says what the nodes are, and the nodes.
fn add_plan(w: &mut LineWriter, first: ShortLine, nodes: &[ShortNode]) -> Result<(), AllocError>
    ensures { IfOk result (λ _. AddsShortLines w.old w.new (first ∷ flat_map lines_of_short_node nodes.now)) }
{
    add_line(w, first)?;
    add_nodes(w, nodes)
}

fn add_stuck(w: &mut LineWriter, holds: &[Hold]) -> Result<(), AllocError>
    ensures { IfOk result (λ _. AddsShortLines w.old w.new (line.Stuck ∷ flat_map lines_of_hold holds.now)) }
{
    add_line(w, ShortLine::Stuck)?;
    add_holds(w, holds)
}

fn add_answer(w: &mut LineWriter, answer: &ShortAnswer) -> Result<(), AllocError>
    ensures { IfOk result (λ _. AddsShortLines w.old w.new (lines_of_answer answer.now)) }
{
    match answer {
        ShortAnswer::Plan(nodes) => add_plan(w, ShortLine::Plan, nodes.as_slice()),
        ShortAnswer::Stuck(holds) => add_stuck(w, holds.as_slice()),
        ShortAnswer::Rest(nodes) => add_plan(w, ShortLine::Rest, nodes.as_slice()),
    }
}

fn add_certificate(w: &mut LineWriter, c: &ShortCertificate) -> Result<(), AllocError>
    ensures { IfOk result (λ _. AddsShortLines w.old w.new (short_lines c.now)) }
{
    add_line(w, ShortLine::Title)?;
    add_line(w, ShortLine::Parts(c.parts))?;
    add_answer(w, &c.answer)?;
    add_line(w, ShortLine::End)
}

/// The text of a certificate, or its length where that is above [`staat_limits::TEXT_LIMIT`].
///
/// The certificate's numbers are within the bounds of the format, and its lists in the format's orders.
pub fn short_text(alloc: Global, c: &ShortCertificate) -> Result<Bytes, TextRefusal>
    requires { IsShortInOrder c.now }
    ensures { IsShortTextAnswer c.now result }
{
    let mut w = LineWriter::new(alloc);
    add_certificate(&mut w, c)?;
    w.into_text()
}
