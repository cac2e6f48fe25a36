// The line of a verdict on a short certificate.
ghost use Rattle.std.specs.Prelude.{◌≡◌, ◌+◌, ◌^◌, ◌≤◌, ◌++◌, IfOk, codes, decimal, string_bytes};
ghost use Rattle.std.specs.Prelude.{sum_by, take};
ghost use Rattle.staat_holds.specs.declared.hold.HoldRule.TheVariants as rules;
ghost use Rattle.staat_judging.specs.Confirming.{hold_rule_text, holds_before, hold_count};
ghost use Rattle.staat_judging.specs.Confirming.{short_reason_text, short_verdict_text};

use staat_confirm::{ShortReason, ShortVerdict};
use staat_holds::HoldRule;
use staat_short::{ShortAnswer, ShortNode};
use staat_vec::{Bytes, OutOfMemory, V3};
use std::alloc::{AllocError, Global};

fn hold_count(node: &ShortNode) -> usize
    ensures { result ≡ hold_count node.now }
{
    match node {
        ShortNode::Leaf(_) => 0,
        ShortNode::Split(_) => 0,
        ShortNode::Group(holds) => holds.as_slice().len(),
    }
}

fn first_nodes(nodes: &[ShortNode], count: usize) -> &[ShortNode]
    ensures { result.now ≡ take count nodes.now }
{
    if count < nodes.len() {
        &nodes[..count]
    } else {
        nodes
    }
}

// How many holds the nodes have.
fn holds_in(nodes: &[ShortNode]) -> u128
    ensures count { result ≡ sum_by hold_count nodes.now }
    ensures room { result + 2 ^ 64 ≤ 2 ^ 128 }
{
    let mut count: u128 = 0;
    for node in nodes {
        count += hold_count(node) as u128;
    }
    count
}

// How many holds stand in the text before the node of this number.
fn holds_before(answer: &ShortAnswer, node: usize) -> u128
    ensures count { result ≡ holds_before answer.now node }
    ensures room { result + 2 ^ 64 ≤ 2 ^ 128 }
{
    match answer {
        ShortAnswer::Plan(nodes) => holds_in(first_nodes(nodes.as_slice(), node)),
        ShortAnswer::Stuck(_) => 0,
        ShortAnswer::Rest(nodes) => holds_in(first_nodes(nodes.as_slice(), node)),
    }
}

fn no_node(alloc: Global, k: usize, hold: u128) -> Result<String, AllocError>
    ensures { IfOk result (λ s. string_bytes s ≡ codes "not valid: " ++ hold_rule_text hold (rules.NoNode k)) }
{
    format!(in alloc; "not valid: no node at place {k} of hold {hold}\n")
}

fn few_nodes(alloc: Global, hold: u128) -> Result<String, AllocError>
    ensures { IfOk result (λ s. string_bytes s ≡ codes "not valid: " ++ hold_rule_text hold rules.FewNodes) }
{
    format!(in alloc; "not valid: fewer than two nodes in hold {hold}\n")
}

fn bad_pair(alloc: Global, k: usize, hold: u128) -> Result<String, AllocError>
    ensures { IfOk result (λ s. string_bytes s ≡ codes "not valid: " ++ hold_rule_text hold (rules.BadPair k)) }
{
    format!(in alloc; "not valid: bad pair at place {k} of hold {hold}\n")
}

fn gap(alloc: Global, v: V3, hold: u128) -> Result<String, AllocError>
    ensures { IfOk result (λ s. string_bytes s ≡ codes "not valid: " ++ hold_rule_text hold (rules.Gap v)) }
{
    let V3 { x, y, z } = v;
    format!(in alloc; "not valid: gap {x} {y} {z} in hold {hold}\n")
}

// The line of a certificate of which a hold breaks a rule, by the number of the hold in the whole text.
fn hold_line(alloc: Global, hold: u128, rule: &HoldRule) -> Result<String, AllocError>
    ensures { IfOk result (λ s. string_bytes s ≡ codes "not valid: " ++ hold_rule_text hold rule.now) }
{
    match rule {
        HoldRule::NoNode(k) => no_node(alloc, *k, hold),
        HoldRule::FewNodes => few_nodes(alloc, hold),
        HoldRule::BadPair(k) => bad_pair(alloc, *k, hold),
        HoldRule::Gap(v) => gap(alloc, *v, hold),
    }
}

// A broken rule with the number that tells where.
fn rule_at(alloc: Global, rule: &str, n: usize) -> Result<String, AllocError>
    ensures { IfOk result (λ s. string_bytes s ≡ codes "not valid: " ++ rule.now ++ decimal n ++ codes "\n") }
{
    format!(in alloc; "not valid: {rule}{n}\n")
}

fn meeting(alloc: Global, a: u32, i: u32, b: u32, j: u32, node: usize) -> Result<String, AllocError>
    ensures { IfOk result (λ s. string_bytes s ≡ codes "not valid: " ++ codes "pieces " ++ decimal a ++ codes " "
        ++ decimal i ++ codes " and " ++ decimal b ++ codes " " ++ decimal j ++ codes " meet at node "
        ++ decimal node ++ codes "\n") }
{
    format!(in alloc; "not valid: pieces {a} {i} and {b} {j} meet at node {node}\n")
}

// The line of a certificate that is not valid.
fn reason_line(
    alloc: Global,
    answer: &ShortAnswer,
    reason: &ShortReason,
) -> Result<String, AllocError>
    ensures { IfOk result (λ s. string_bytes s ≡ codes "not valid: " ++ short_reason_text answer.now reason.now) }
{
    match reason {
        ShortReason::WrongParts(stated) => rule_at(alloc, "wrong parts ", *stated as usize),
        ShortReason::HoldBreaks(broken) => hold_line(alloc, broken.hold as u128, &broken.rule),
        ShortReason::GroupBreaks { node, broken } => {
            let hold = holds_before(answer, *node) + broken.hold as u128;
            hold_line(alloc, hold, &broken.rule)
        }
        ShortReason::BadLeaves(node) => rule_at(alloc, "bad leaves at node ", *node),
        ShortReason::ZeroDirection(node) => rule_at(alloc, "zero direction at node ", *node),
        ShortReason::Meet { a, i, b, j, node } => meeting(alloc, *a, *i, *b, *j, *node),
    }
}

/// The line of a verdict on a certificate with this answer: `valid plan`, `valid refusal`, or `not valid: ` and the
/// first rule that is broken, with the numbers that tell where. Holds count from 0 through the whole text.
pub fn short_verdict_text(
    alloc: Global,
    answer: &ShortAnswer,
    verdict: &ShortVerdict,
) -> Result<Bytes, OutOfMemory>
    ensures { IfOk result (λ text. text ≡ short_verdict_text answer.now verdict.now) }
{
    let line = match verdict {
        ShortVerdict::ValidPlan => String::from_str(alloc, "valid plan\n")?,
        ShortVerdict::ValidRefusal => String::from_str(alloc, "valid refusal\n")?,
        ShortVerdict::Not(reason) => reason_line(alloc, answer, reason)?,
    };
    Ok(Bytes::from_vec(line.into_bytes()))
}
