//! The law of types of relations: each row of a well-typed relation fits its columns, where the tables that it reads hold values of
//! the kinds that it reads them as. `Kinded` says what such tables are; what is well typed stands in `well_typed`, and what a
//! relation denotes in `plan_denote`. `Holes` says what may go to the places of a plan's subqueries.
#![tactic(auto)]

ghost use Rattle.std.specs.List.{AllByRecursion};
ghost use Rattle.sub_types.specs.Value.{Fits};
ghost use Rattle.plan_typed.specs.Types.{columns_of};
ghost use Rattle.plan_typed.specs.declared.rel.Rel.{Rel};
ghost use Rattle.plan_typed.specs.declared.sub.Holed.{Holed};
ghost use Rattle.plan_typed.specs.declared.sub.Sub.{Sub};
ghost use Rattle.well_typed.specs.WellTyped.{AreTyped, IsWellTyped};
ghost use Rattle.plan_denote.specs.Denote.{Tables, denote};
ghost use Rattle.plan_denote.specs.Subqueries.{denote_plan};
ghost use Rattle.denote_typed.specs.Holes.{AreAwaited};
ghost use Rattle.denote_typed.specs.Kinded.{AreWellKinded};

/// Each row of a well-typed relation fits its columns, whatever fault ends the rows. The tables are well kinded: a text in them may
/// be too long and a null stand in a required column, since a read tests for both.
pub fn rows_fit_their_columns()
    ensures { (tables : Tables) (rel : Rel) → AreTyped rel → AreWellKinded tables rel → AllByRecursion (Fits (columns_of rel)) (denote tables rel).rows }
{}

/// The same of a plan with subqueries, where the hole of each awaits what the subquery gives.
pub fn rows_of_plans_fit_their_columns()
    ensures { (tables : Tables) (plan : Holed) → IsWellTyped plan → AreAwaited plan.subs plan.typed.rel → AllByRecursion (λ (sub : Sub). AreWellKinded tables sub.rel) plan.subs → AreWellKinded tables plan.typed.rel → AllByRecursion (Fits (columns_of plan.typed.rel)) (denote_plan tables plan).rows }
{}
