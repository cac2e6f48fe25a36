//! Laws on verdicts: what is good is called valid. Each is a function that does nothing, and its contract is the law.
ghost use Rattle.std.specs.Prelude.{[], ◌∷◌, List, length};
ghost use Rattle.staat_model.specs.declared.assembly.Part.{Part as PartValue};
ghost use Rattle.staat_model.specs.Plans.{IsGood, Plan};
ghost use Rattle.staat_model.specs.Sets.{below};
ghost use Rattle.staat_holds.specs.declared.grouped.GroupedTree.{GroupedTree as GroupedTreeValue};
ghost use Rattle.staat_holds.specs.declared.hold.Hold.{Hold as HoldValue};
ghost use Rattle.staat_holds.specs.Chains.{KeepsHoldRules, own_names};
ghost use Rattle.staat_holds.specs.Partials.{HasTogether, IsOrderedHold, IsShownRest, partial_of};
ghost use Rattle.staat_short.specs.declared.short.ShortAnswer.TheVariants as answer;
ghost use Rattle.staat_short.specs.PlanNodes.{grouped_plan_of, plan_nodes};
ghost use Rattle.staat_short.specs.ShortTexts.{short_nodes_of};
ghost use Rattle.staat_confirm.specs.declared.verdict.ShortVerdict.TheVariants.{ValidPlan, ValidRefusal};
ghost use Rattle.staat_confirm.specs.ShortVerdicts.{IsShortVerdict};

/// The certificate of a plan that takes all parts apart is valid.
pub fn good_plans_are_valid()
    ensures { (parts : List PartValue) (plan : Plan) → IsGood parts (below (length parts)) plan
        → IsShortVerdict parts (record { parts = length parts; answer = answer.Plan (plan_nodes plan) }) ValidPlan }
{}

/// The certificate of a plan that takes all parts apart down to its groups, of which there are some and each is shown,
/// is valid.
pub fn shown_rests_are_valid()
    ensures { (parts : List PartValue) (tree : GroupedTreeValue) → IsShownRest parts tree
        → HasTogether (partial_of tree)
        → IsShortVerdict parts
        (record { parts = length parts; answer = answer.Rest (short_nodes_of (grouped_plan_of tree)) })
        ValidRefusal }
{}

/// The certificate of one hold that keeps the rules is valid.
pub fn kept_holds_are_valid()
    ensures { (parts : List PartValue) (hold : HoldValue) → IsOrderedHold hold
        → KeepsHoldRules parts (own_names (length parts)) hold
        → IsShortVerdict parts (record { parts = length parts; answer = answer.Stuck (hold ∷ []) }) ValidRefusal }
{}
