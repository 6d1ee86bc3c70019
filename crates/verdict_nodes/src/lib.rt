//! The law of nodes: what a check gives, and what it refuses, does not depend on the numbers of the nodes before it, nor on the
//! subqueries that are done: only on how many relations are numbered. So a plan that will be refused may be checked on with any
//! numbers of nodes.
#![tactic(auto)]

ghost use Rattle.plan_raw.specs.declared.aggregate.Measure.{Measure};
ghost use Rattle.plan_raw.specs.declared.expr.RawExpr.{RawExpr};
ghost use Rattle.plan_verdict.specs.Exprs.{Terms};
ghost use Rattle.plan_verdict.specs.Meaning.{Scope};
ghost use Rattle.plan_verdict.specs.Verdict.{checked_expr, checked_measure};
ghost use Rattle.verdict_nodes.specs.Alike.{IsBlind};

/// An expression is checked as the same, or refused alike, whatever the numbers of the nodes before it.
pub fn expressions_are_checked_alike()
    ensures { (terms : Terms) (expr : RawExpr) (scope : Scope) → IsBlind ((checked_expr terms expr).check scope) }
{}

/// So is a measure.
pub fn measures_are_checked_alike()
    ensures { (terms : Terms) (measure : Measure) (scope : Scope) → IsBlind (checked_measure terms measure scope) }
{}
