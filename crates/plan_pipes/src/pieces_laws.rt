// The laws by which the pieces of a pipeline's input combine.
ghost use Rattle.std.specs.Prelude.{◌≡◌, List, ◌++◌, Bool, Some, map};
ghost use Rattle.std.specs.List.Sorted.{IsPermutation};
ghost use Rattle.sub_types.specs.declared.fault.Fault.{Fault};
ghost use Rattle.sub_types.specs.Stream.{Stream, glue};
ghost use Rattle.plan_denote.specs.Rows.{Row};
ghost use Rattle.plan_pipes.specs.declared.pipe.Step.{Step};
ghost use Rattle.plan_pipes.specs.Run.{through};
ghost use Rattle.plan_pipes.specs.RowMeaning.{Table, row_steps};
ghost use Rattle.plan_pipes.specs.Pieces.{piece_through, marks_through, merged_each, finished, Agree};

/// The steps over a whole input give what each piece gives by itself, and then what comes behind the pieces by their marks.
pub fn pieces_combine()
    ensures { (tables : List Table) (steps : List Step) (pieces : List (Stream Row)) → through row_steps tables steps (glue pieces) ≡ glue (map (piece_through tables steps) pieces ++ finished tables steps (marks_through tables steps pieces)) }
{}

/// The marks of some pieces and of others, merged, are those of all of them. So each piece, or each worker, can have its own.
pub fn marks_of_more_pieces()
    ensures { (tables : List Table) (steps : List Step) (pieces others : List (Stream Row)) → marks_through tables steps (pieces ++ others) ≡ merged_each (marks_through tables steps pieces) (marks_through tables steps others) }
{}

/// Marks don't depend on the order in which the pieces were worked.
pub fn marks_in_any_order()
    ensures { (tables : List Table) (steps : List Step) (pieces others : List (Stream Row)) → IsPermutation pieces others → marks_through tables steps pieces ≡ marks_through tables steps others }
{}

/// Only the marks of joins that give their unmarked right rows decide what comes behind the pieces.
pub fn used_marks_decide()
    ensures { (tables : List Table) (steps : List Step) (marks others : List (List Bool)) → Agree tables steps marks others → finished tables steps marks ≡ finished tables steps others }
{}

/// Where pieces end in a fault, what comes behind them doesn't matter. So the marks need to be right only where no piece did.
pub fn rest_behind_a_fault()
    ensures { (pieces rest : List (Stream Row)) (fault : Fault) → (glue pieces).end ≡ Some fault → glue (pieces ++ rest) ≡ glue pieces }
{}
