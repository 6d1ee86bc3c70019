//! Laws of what the ends of pipelines ask for beside their typing: the types that pipelines store are of kinds that may stand in a plan.
//! `specs/Stored.antt` says what that means.
#![tactic(auto)]

ghost use Rattle.std.specs.Prelude.{ℕ, List, Option, ◌++◌, ◌∷◌};
ghost use Rattle.sub_types.specs.declared.kind.Ty.{Ty};
ghost use Rattle.plan_pipes.specs.declared.pipe.Pipe.{Pipe};
ghost use Rattle.plan_pipes.specs.Run.{Past, after, fed, flow};
ghost use Rattle.plan_pipes.specs.TypeMeaning.{AreTypedPipes};
ghost use Rattle.rel_specs.specs.declared.join.JoinSpec.{JoinSpec};
ghost use Rattle.pipe_types.specs.Exact.{exact_over, gathered_types};
ghost use Rattle.pipe_types.specs.Over.{IsFeedOver, AreStepsOver, IsBreakerOver, stored};
ghost use Rattle.end_laws.specs.Stored.{AreKinds, StoresKinds};

/// Where the columns that read relations read are of valid kinds, and pipelines are well typed, each stores columns of valid kinds: as
/// it is fed, behind its steps, and as its breaker gathers them.
pub fn stored_kinds_are_valid()
    ensures fed { (columns : ℕ → List Ty) (before more : List Pipe) (pipe : Pipe) → ((number : ℕ) → AreKinds (columns number)) → AreTypedPipes columns (before ++ pipe ∷ more) → AreKinds (fed (exact_over columns) (stored columns before).streams pipe.feed) }
    ensures through { (columns : ℕ → List Ty) (before more : List Pipe) (pipe : Pipe) → ((number : ℕ) → AreKinds (columns number)) → AreTypedPipes columns (before ++ pipe ∷ more) → AreKinds (flow (exact_over columns) (stored columns before) pipe.feed pipe.steps) }
    ensures gathered { (columns : ℕ → List Ty) (before more : List Pipe) (pipe : Pipe) → ((number : ℕ) → AreKinds (columns number)) → AreTypedPipes columns (before ++ pipe ∷ more) → AreKinds (gathered_types pipe.breaker (flow (exact_over columns) (stored columns before) pipe.feed pipe.steps)) }
{}

/// The same of one pipeline over what earlier ones stored, whatever they are: what it adds is of valid kinds too.
pub fn one_pipe_stores_valid_kinds()
    ensures { (columns : ℕ → List Ty) (past : Past (List Ty) (Option JoinSpec)) (pipe : Pipe) → ((number : ℕ) → AreKinds (columns number)) → StoresKinds past → IsFeedOver columns past.streams pipe.feed → AreStepsOver past.tables (fed (exact_over columns) past.streams pipe.feed) pipe.steps → IsBreakerOver (flow (exact_over columns) past pipe.feed pipe.steps) pipe.breaker → StoresKinds (after (exact_over columns) past pipe) }
{}
