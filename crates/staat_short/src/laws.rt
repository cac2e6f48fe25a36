//! Laws on short certificates and their texts. Each is a function that does nothing, and its contract is the law.
ghost use Rattle.std.specs.Prelude.{◌≡◌, ◌≢◌, ◌≤◌, ℕ, [], ◌∷◌, All, List, Result, Ok, Err};
ghost use Rattle.std.specs.Prelude.{length};
ghost use Rattle.staat_limits.specs.declared.limits.TheConstants.{TEXT_LIMIT};
ghost use Rattle.staat_model.specs.declared.assembly.Part.{Part as PartValue};
ghost use Rattle.staat_model.specs.Assemblies.{IsProduct};
ghost use Rattle.staat_model.specs.Plans.{IsGood, Plan};
ghost use Rattle.staat_model.specs.Sets.{below};
ghost use Rattle.staat_holds.specs.declared.grouped.GroupedTree.{GroupedTree as GroupedTreeValue};
ghost use Rattle.staat_holds.specs.declared.hold.Hold.{Hold as HoldValue};
ghost use Rattle.staat_holds.specs.Chains.{KeepsHoldRules, own_names};
ghost use Rattle.staat_holds.specs.Partials.{HasSmallDirections, IsOrderedHold, IsShownRest};
ghost use Rattle.staat_cert.specs.declared.cert_refusal.CertRefusal.{CertRefusal as CertRefusalValue};
ghost use Rattle.staat_cert.specs.declared.cert_refusal.CertRefusal.TheVariants.{OutOfMemory as NoMemory};
ghost use Rattle.staat_short.specs.declared.short.ShortAnswer.TheVariants as answer;
ghost use Rattle.staat_short.specs.declared.short.ShortCertificate.{ShortCertificate as CertificateValue};
ghost use Rattle.staat_short.specs.ShortFeeds.{IsShortReadAnswer};
ghost use Rattle.staat_short.specs.PlanNodes.{grouped_plan_of, plan_nodes, without_groups};
ghost use Rattle.staat_short.specs.ShortTexts.{IsShortInOrder, IsShortTextOf, IsUngrouped, short_nodes_of, short_text};
ghost use Rattle.staat_short.specs.ShortWriting.{IsShortTextAnswer};

/// A text is that of one certificate at most, and a certificate has one text.
pub fn one_short_text()
    ensures certificate { (text : List ℕ) (c d : CertificateValue) → IsShortTextOf text c → IsShortTextOf text d
        → c ≡ d }
    ensures text { (text other : List ℕ) (c : CertificateValue) → IsShortTextOf text c → IsShortTextOf other c
        → text ≡ other }
{}

/// Reading a text has one answer, want of memory aside.
pub fn one_short_answer()
    ensures { (text : List ℕ) (r s : Result CertificateValue CertRefusalValue)
        → IsShortReadAnswer text r → IsShortReadAnswer text s → r ≢ Err NoMemory → s ≢ Err NoMemory → r ≡ s }
{}

/// The text that is written of a certificate is read as this certificate.
pub fn written_short_is_read()
    ensures { (c : CertificateValue) (text : List ℕ) → IsShortTextAnswer c (Ok text)
        → IsShortReadAnswer text (Ok c) }
{}

/// The nodes of a plan are those of one whole tree, and none of them is a group.
pub fn plan_nodes_are_a_tree()
    ensures tree { (t : Plan) → plan_nodes t ≡ short_nodes_of (without_groups t) }
    ensures ungrouped { (t : Plan) → All IsUngrouped (plan_nodes t) }
{}

/// What is shown of a product is within the bounds of the text and in its orders: a good plan, a plan that takes the
/// parts apart down to groups that are shown, and one hold that joins stuck parts.
pub fn shown_plans_are_in_order()
    ensures plan { (parts : List PartValue) (plan : Plan) → IsProduct parts
        → IsGood parts (below (length parts)) plan → HasSmallDirections plan
        → IsShortInOrder (record { parts = length parts; answer = answer.Plan (plan_nodes plan) }) }
    ensures rest { (parts : List PartValue) (tree : GroupedTreeValue) → IsProduct parts → IsShownRest parts tree
        → IsShortInOrder
        (record { parts = length parts; answer = answer.Rest (short_nodes_of (grouped_plan_of tree)) }) }
    ensures stuck { (parts : List PartValue) (hold : HoldValue) → IsProduct parts → IsOrderedHold hold
        → KeepsHoldRules parts (own_names (length parts)) hold
        → IsShortInOrder (record { parts = length parts; answer = answer.Stuck (hold ∷ []) }) }
{}

/// The text of a good plan for a product is not too long.
pub fn plan_texts_are_short()
    ensures { (parts : List PartValue) (plan : Plan) → IsProduct parts
        → IsGood parts (below (length parts)) plan → HasSmallDirections plan
        → length (short_text (record { parts = length parts; answer = answer.Plan (plan_nodes plan) })) ≤ TEXT_LIMIT }
{}
