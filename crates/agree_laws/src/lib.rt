//! Laws of tables that agree where a relation reads, and of the order in which read relations are read. Their words stand in
//! `specs/Agree.antt`.
#![tactic(auto)]

ghost use Rattle.std.specs.Prelude.{◌≡◌, ◌∷◌, ◌++◌, [], ℕ, List};
ghost use Rattle.std.specs.List.{AllByRecursion, flat_map};
ghost use Rattle.std.specs.Ordering.{nat_cmp};
ghost use Rattle.sub_types.specs.declared.kind.Ty.{Ty};
ghost use Rattle.plan_typed.specs.declared.rel.Rel.{Rel};
ghost use Rattle.plan_typed.specs.declared.sub.Holed.{Holed};
ghost use Rattle.well_typed.specs.WellTyped.{IsWellTyped};
ghost use Rattle.plan_denote.specs.Denote.{Tables, denote};
ghost use Rattle.plan_denote.specs.Sort.{arranged};
ghost use Rattle.plan_denote.specs.Subqueries.{denote_plan};
ghost use Rattle.plan_reads.specs.Reads as plans;
ghost use Rattle.cut_laws.specs.Reads.{reads_of};
ghost use Rattle.agree_laws.specs.Agree.{Agree, Agrees, IsOfTypes, ReadOnce, joint, numbers_in, rels_of};

/// The numbers of what relations read are the same in order, whether those of a join's left input come first or those of its right one.
pub fn numbers_read_are_the_same()
    ensures { (rels : List Rel) → arranged nat_cmp (flat_map reads_of rels) ≡ arranged nat_cmp (numbers_in (flat_map plans.reads_in rels)) }
{}

/// A relation denotes the same over tables that agree where it reads.
pub fn relations_denote_alike()
    ensures { (types : ℕ → List Ty) (a b : Tables) (rel : Rel) → AllByRecursion (IsOfTypes types) (plans.reads_in rel) → Agree a b rel → denote a rel ≡ denote b rel }
{}

/// So does a plan.
pub fn plans_denote_alike()
    ensures { (types : ℕ → List Ty) (a b : Tables) (plan : Holed) → AllByRecursion (IsOfTypes types) (plans.reads_of plan) → AllByRecursion (Agrees a b) (plans.reads_of plan) → denote_plan a plan ≡ denote_plan b plan }
{}

/// A well-typed plan reads no number twice.
pub fn plans_read_once()
    ensures { (plan : Holed) → IsWellTyped plan → ReadOnce (rels_of plan.subs ++ plan.typed.rel ∷ []) }
{}

/// Tables that agree with those of one relation where it reads, and elsewhere with others, agree with both.
pub fn joint_tables_agree()
    ensures { (done : List Rel) (rel : Rel) → ReadOnce (done ++ rel ∷ []) → (own other t : Tables) → AllByRecursion (Agrees (joint (plans.reads_in rel) own other) t) (flat_map plans.reads_in (done ++ rel ∷ [])) → AllByRecursion (Agrees other t) (flat_map plans.reads_in done) × Agree own t rel }
{}
