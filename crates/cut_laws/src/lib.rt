//! Laws of relations that are cut into pipelines: a sort by expressions is one by columns, a join is one by its keys and the rest of
//! its condition over rows that were gathered before, these parts of a well-typed condition are well typed, and what each pipeline
//! gathers stands on what the earlier ones gave. `specs/Reads.antt` has the read relations of a relation in the order in which they
//! run, and what they read, and `specs/Found.antt` finds them by their numbers.
#![tactic(auto)]

ghost use Rattle.std.specs.Prelude.{◌≡◌, ◌++◌, ◌∷◌, ℕ, List, Option, map, length};
ghost use Rattle.std.specs.List.{AllByRecursion, range_with_len};
ghost use Rattle.sub_types.specs.declared.kind.Ty.{Ty};
ghost use Rattle.sub_types.specs.Stream.{Stream, rows_alone};
ghost use Rattle.plan_typed.specs.declared.expr.Expr.{Expr};
ghost use Rattle.plan_typed.specs.declared.rel.JoinKind.{JoinKind};
ghost use Rattle.plan_typed.specs.declared.rel.Rel.{Rel};
ghost use Rattle.plan_typed.specs.declared.rel.SortKey.{SortKey};
ghost use Rattle.plan_typed.specs.Numbers.{numbers_of};
ghost use Rattle.well_typed.specs.WellTyped.{AllDiffer, IsConditionOver};
ghost use Rattle.plan_denote.specs.Conjuncts.{keys_of, rest_of};
ghost use Rattle.plan_denote.specs.Denote.{Tables, direction_of, join_of};
ghost use Rattle.plan_denote.specs.Eval.{eval};
ghost use Rattle.plan_denote.specs.Join.{Join, joined, crossed};
ghost use Rattle.plan_denote.specs.Project.{projected, emitted};
ghost use Rattle.plan_denote.specs.Rows.{Row, from_all};
ghost use Rattle.plan_denote.specs.Sort.{sorted};
ghost use Rattle.rel_specs.specs.declared.join.JoinSpec.{JoinSpec};
ghost use Rattle.plan_pipes.specs.declared.pipe.Pipe.{Pipe};
ghost use Rattle.plan_pipes.specs.RowMeaning.{join_by, sorted_by};
ghost use Rattle.plan_pipes.specs.Run.{Meaning, flow, run, stream_at};
ghost use Rattle.plan_pipes.specs.TypeMeaning.{AreTypedPipes, gathered, types_over};
ghost use Rattle.rel_parts.specs.Parts.{IsJoinSpec, IsCrossSpec, orders_from};
ghost use Rattle.cut_laws.specs.Found.{inputs_of, columns_read};
ghost use Rattle.cut_laws.specs.Keys.{HasColumns};
ghost use Rattle.cut_laws.specs.Reads.{ReadsGive, ReadsHave};

/// A sort by expressions of rows of one width is a sort by the columns that their values become behind each row, of which then the
/// row's own columns are kept.
pub fn sort_by_columns()
    ensures { (number width : ℕ) (keys : List SortKey) (s : Stream Row) → AllByRecursion (λ row. length row ≡ width) s.rows → emitted (range_with_len 0 width) (sorted_by (orders_from width keys) (projected number (map eval (map (λ (key : SortKey). key.expr) keys)) s)) ≡ sorted number (map (λ (key : SortKey). eval key.expr) keys) (map direction_of keys) s }
{}

/// A join by its parts is the join by its condition, and a cross the inner join without one.
pub fn join_by_parts()
    ensures join { (number : ℕ) (kind : JoinKind) (left right : List Ty) (on : Expr) (spec : JoinSpec) → IsJoinSpec number kind left right on spec → join_by spec ≡ join_of number (length left) (length right) on }
    ensures cross { (number : ℕ) (left right : List Ty) (spec : JoinSpec) (lefts rights : Stream Row) → IsCrossSpec number left right spec → joined spec.kind (join_by spec) lefts rights ≡ crossed number (length left) (length right) lefts rights }
{}

/// Right rows that end in a fault may be gathered as none with that fault.
pub fn join_of_gathered()
    ensures { (kind : JoinKind) (join : Join) (left right : Stream Row) → joined kind join left (from_all rows_alone right) ≡ joined kind join left right }
{}

/// The keys of a well-typed condition over left and right columns have a column on each side, of the same kind, and the rest of it is
/// well typed.
pub fn parts_of_conditions()
    ensures keys { (left right : List Ty) (on : Expr) → IsConditionOver (left ++ right) on → AllByRecursion (HasColumns left right) (keys_of (length left) on) }
    ensures rest { (left right : List Ty) (on : Expr) → IsConditionOver (left ++ right) on → AllByRecursion (IsConditionOver (left ++ right)) (rest_of (length left) on) }
{}

/// Where relations have different numbers, as those of a well-typed plan have, the rows that its read relations read and the types of
/// their columns are found by their numbers.
pub fn reads_are_found()
    ensures rows { (tables : Tables) (rel : Rel) → AllDiffer (numbers_of rel) → ReadsGive tables (inputs_of tables rel) rel }
    ensures columns { (rel : Rel) → AllDiffer (numbers_of rel) → ReadsHave (columns_read rel) rel }
{}

/// What a pipeline gathers, whatever runs behind it, is what its feed gives, through its steps, over what the earlier ones gathered
/// and built.
pub fn stream_of_each_pipe<D, T>()
    ensures { (m : Meaning D T) (before more : List Pipe) (pipe : Pipe) → stream_at m (run m (before ++ pipe ∷ more)).streams (length before) ≡ m.gather pipe.breaker (flow m (run m before) pipe.feed pipe.steps) }
{}

/// Where pipelines are well typed, what each gathers has types, over what the earlier ones gathered and built. So its feed, its steps
/// and its breaker have the types that they ask for.
pub fn each_pipe_is_typed()
    ensures { (columns : ℕ → List Ty) (before more : List Pipe) (pipe : Pipe) → AreTypedPipes columns (before ++ pipe ∷ more) → (types : List Ty) × gathered pipe.breaker (flow (types_over columns) (run (types_over columns) before) pipe.feed pipe.steps) types }
{}
