//! Laws of the read relations of a checked relation: of a well-typed one they are well typed, and they are read as before where the
//! values of subqueries are put in. `specs/Typed.antt` says what that means; `cut_laws/specs/Found.antt` has the read relations.
#![tactic(auto)]

ghost use Rattle.std.specs.List.{AllByRecursion};
ghost use Rattle.plan_typed.specs.declared.rel.Rel.{Rel};
ghost use Rattle.well_typed.specs.WellTyped.{AreTyped};
ghost use Rattle.plan_denote.specs.Holes.{Known};
ghost use Rattle.cut_laws.specs.Found.{read_rels};
ghost use Rattle.read_laws.specs.Typed.{IsTypedRead, StaysAsRead};

/// The read relations of a well-typed relation, and of those below it, are well typed.
pub fn reads_are_typed()
    ensures { (rel : Rel) → AreTyped rel → AllByRecursion IsTypedRead (read_rels rel) }
{}

/// Where the values of subqueries are put into a relation, its numbers stay, and the same read relations read columns of the same types.
pub fn filled_reads_stay()
    ensures { (known : Known) (rel : Rel) → StaysAsRead known rel }
{}
