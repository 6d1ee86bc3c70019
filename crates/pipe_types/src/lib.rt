//! The types that the columns of a pipeline's batches are stored with, and the laws by which a well-typed plan's pipelines may be run
//! over such batches: each step and each breaker is well typed over them, and rows that fit them fit those of the next step.
//! `specs/Exact.antt` says what is stored, and `specs/Over.antt` what is well typed over it.
#![tactic(auto)]

ghost use Rattle.std.specs.Prelude.{◌≡◌, ℕ, List, ◌++◌, ◌∷◌, Bool, None, Some};
ghost use Rattle.std.specs.List.{AllByRecursion};
ghost use Rattle.sub_types.specs.declared.kind.Ty.{Ty};
ghost use Rattle.sub_types.specs.Stream.{Stream};
ghost use Rattle.sub_types.specs.Value.{Fits};
ghost use Rattle.plan_denote.specs.Rows.{Row};
ghost use Rattle.rel_specs.specs.declared.join.JoinSpec.{JoinSpec};
ghost use Rattle.join_columns.specs.Sides.{kinds_of};
ghost use Rattle.plan_pipes.specs.declared.pipe.Pipe.{Pipe};
ghost use Rattle.plan_pipes.specs.Pieces.{probed, last_of};
ghost use Rattle.plan_pipes.specs.RowMeaning.{table_of};
ghost use Rattle.plan_pipes.specs.Run.{run, stream_at};
ghost use Rattle.plan_pipes.specs.TypeMeaning.{AreTypedPipes, types_over};
ghost use Rattle.well_typed.specs.WellTyped.{AreAll};
ghost use Rattle.pipe_types.specs.Exact.{exact_over, probed_types};
ghost use Rattle.pipe_types.specs.Over.{IsPipeOver, stored};

/// Where pipelines are well typed, each is well typed over the types that the earlier ones stored.
pub fn each_pipe_is_over_stored_types()
    ensures { (columns : ℕ → List Ty) (before more : List Pipe) (pipe : Pipe) → AreTypedPipes columns (before ++ pipe ∷ more) → IsPipeOver columns before pipe }
{}

/// The types of a pipeline's stream are as what it stored implies: of the same kinds, and nullable wherever that is.
pub fn stored_types_are_as_implied()
    ensures { (columns : ℕ → List Ty) (pipes : List Pipe) (at : ℕ) (types : List Ty) → stream_at (types_over columns) (run (types_over columns) pipes).streams at types → AreAll (stream_at (exact_over columns) (stored columns pipes).streams at) types }
{}

/// Rows that a join gives by batches of its left rows fit the types that it stores: those that each batch gives, and those that come
/// last, whatever is marked. Right rows that end in a fault don't count, and need not fit.
pub fn joined_rows_fit()
    ensures probed { (given : List Ty) (join : JoinSpec) (right left : Stream Row) → kinds_of given ≡ kinds_of join.left.items → (right.end ≡ None → AllByRecursion (Fits join.right.items) right.rows) → AllByRecursion (Fits given) left.rows → AllByRecursion (Fits (probed_types (Some join) given)) (probed (table_of join right) left).rows }
    ensures last { (given : List Ty) (join : JoinSpec) (right : Stream Row) (marks : List Bool) → kinds_of given ≡ kinds_of join.left.items → (right.end ≡ None → AllByRecursion (Fits join.right.items) right.rows) → AllByRecursion (Fits (probed_types (Some join) given)) (last_of (table_of join right) marks).rows }
{}
