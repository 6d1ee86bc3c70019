//! Laws for the run of an accepted plan over its tables in memory. `plan_tables` reads each read relation's table into memory
//! (`IsTableOf`), and `row_engine` sees these tables by their numbers (`tables_seen`). The rows that an accepted plan denotes over
//! them fit its columns, and where they are the tested tables of its files, the plan denotes what it denotes over the files.
#![tactic(auto)]

ghost use Rattle.std.specs.Prelude.{◌≡◌, ℕ, List, true, Ok, map};
ghost use Rattle.std.specs.List.{AllByRecursion, AllZip};
ghost use Rattle.sub_types.specs.Value.{Fits};
ghost use Rattle.plan_raw.specs.declared.plan.PlanTree.{PlanTree};
ghost use Rattle.plan_typed.specs.declared.sub.Holed.{Holed};
ghost use Rattle.plan_typed.specs.Types.{columns_of};
ghost use Rattle.plan_denote.specs.Subqueries.{denote_plan};
ghost use Rattle.plan_verdict.specs.Verdict.{verdict};
ghost use Rattle.well_typed.specs.WellTyped.{IsWellTyped};
ghost use Rattle.plan_reads.specs.Reads.{reads_of};
ghost use Rattle.row_engine.specs.declared.tables.Table.{Table};
ghost use Rattle.row_engine.specs.Tables.{tables_seen};
ghost use Rattle.plan_tables.specs.Tables.{Opened, tables_of, tested_tables};
ghost use Rattle.plan_tables.specs.Read.{IsTableOf};

/// Each row of an accepted plan over tables in memory fits the plan's columns, whatever fault ends the rows, where these are the
/// tables of the plan's read relations, in their order: each with its number, in batches whose rows fit its types.
pub fn rows_over_tables_in_memory_fit()
    ensures { (tree : PlanTree) (plan : Holed) (tables : List Table) → verdict true tree ≡ Ok plan → AllZip IsTableOf (reads_of plan) tables → AllByRecursion (Fits (columns_of plan.typed.rel)) (denote_plan (tables_seen tables) plan).rows }
{}

/// A well-typed plan denotes over tables in memory what it denotes over its files' tables, where each table in memory is the tested
/// table of its read relation.
pub fn tables_in_memory_denote_alike()
    ensures { (plan : Holed) (opened : List Opened) (tables : List Table) → IsWellTyped plan → map (λ (one : Opened). one.read) opened ≡ reads_of plan → ((relation : ℕ) → tables_seen tables relation ≡ tested_tables opened relation) → denote_plan (tables_seen tables) plan ≡ denote_plan (tables_of opened) plan }
{}
