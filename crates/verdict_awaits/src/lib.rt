//! The law of holes: in an accepted plan the node that each subquery's hole names awaits what the subquery gives. What accepts a
//! plan stands in `plan_verdict`, and what awaits a subquery in `denote_typed`, whose law of plans takes it as a premise. So that
//! law holds of every accepted plan.
#![tactic(auto)]

ghost use Rattle.std.specs.Prelude.{◌≡◌, true, Ok};
ghost use Rattle.std.specs.List.{AllByRecursion};
ghost use Rattle.sub_types.specs.Value.{Fits};
ghost use Rattle.plan_raw.specs.declared.plan.PlanTree.{PlanTree};
ghost use Rattle.plan_typed.specs.declared.sub.Holed.{Holed};
ghost use Rattle.plan_typed.specs.declared.sub.Sub.{Sub};
ghost use Rattle.plan_typed.specs.Types.{columns_of};
ghost use Rattle.plan_denote.specs.Denote.{Tables};
ghost use Rattle.plan_denote.specs.Subqueries.{denote_plan};
ghost use Rattle.plan_verdict.specs.Verdict.{verdict};
ghost use Rattle.denote_typed.specs.Holes.{AreAwaited};
ghost use Rattle.denote_typed.specs.Kinded.{AreWellKinded};

/// In an accepted plan the hole of each subquery awaits what the subquery gives.
pub fn holes_are_awaited()
    ensures { (tree : PlanTree) (plan : Holed) → verdict true tree ≡ Ok plan → AreAwaited plan.subs plan.typed.rel }
{}

/// Each row of an accepted plan fits the plan's columns, whatever fault ends the rows, where the tables are well kinded for the main
/// relation and for those of the subqueries.
pub fn rows_of_accepted_plans_fit_their_columns()
    ensures { (tables : Tables) (tree : PlanTree) (plan : Holed) → verdict true tree ≡ Ok plan → AllByRecursion (λ (sub : Sub). AreWellKinded tables sub.rel) plan.subs → AreWellKinded tables plan.typed.rel → AllByRecursion (Fits (columns_of plan.typed.rel)) (denote_plan tables plan).rows }
{}
