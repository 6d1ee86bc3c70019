//! Laws that join the tables of a plan's read relations with what the plan denotes. A table's rows are tested by the types that they
//! are read as before the plan's relations run, and a read tests them again: the plan denotes the same over either. `Tested` and
//! `Fitting` say what such tables are, over the read relations of `plan_reads`; `Opened` which tables a plan's files give.
#![tactic(auto)]

ghost use Rattle.std.specs.Prelude.{◌≡◌, ℕ, List};
ghost use Rattle.std.specs.List.{AllByRecursion};
ghost use Rattle.sub_types.specs.Stream.{Stream, each};
ghost use Rattle.sub_types.specs.declared.kind.Ty.{Ty};
ghost use Rattle.plan_typed.specs.declared.rel.Rel.{Rel};
ghost use Rattle.plan_typed.specs.declared.sub.Holed.{Holed};
ghost use Rattle.plan_denote.specs.Rows.{Row, Formula};
ghost use Rattle.plan_denote.specs.Read.{read_rows};
ghost use Rattle.plan_denote.specs.Denote.{Tables, denote};
ghost use Rattle.plan_denote.specs.Subqueries.{denote_plan};
ghost use Rattle.well_typed.specs.WellTyped.{IsWellTyped};
ghost use Rattle.denote_typed.specs.Kinded.{AreWellKinded};
ghost use Rattle.plan_reads.specs.Reads.{reads_of};
ghost use Rattle.table_rows.specs.Read.{read_row};
ghost use Rattle.plan_laws.specs.Tested.{IsTestedTable, AreTested, AreTestedIn};
ghost use Rattle.plan_laws.specs.Fitting.{AreFitting, AreWellKindedIn};
ghost use Rattle.plan_laws.specs.Shaped.{IsShaped};
ghost use Rattle.plan_tables.specs.Tables.{Opened, tables_of, tested_tables};
ghost use Rattle.plan_laws.specs.Opened.{AreOpened, HasOwnTable, HasFittingRows};

/// Rows that were tested by a read's types, up to the first fault, are read as they are without: each row that passed passes
/// again, and the fault stays.
pub fn tested_rows_are_read_alike()
    ensures { (number : ℕ) (types : List Ty) (filter : Formula) (mask : List ℕ) (rows : Stream Row) → read_rows number types filter mask (each (read_row number types) rows) ≡ read_rows number types filter mask rows }
{}

/// A relation over tables whose rows were tested denotes what it denotes over the tables as they are.
pub fn tested_tables_denote_alike()
    ensures { (tested tables : Tables) (rel : Rel) → AreTested tested tables rel → denote tested rel ≡ denote tables rel }
{}

/// The same of a plan with subqueries.
pub fn tested_tables_denote_plans_alike()
    ensures { (tested tables : Tables) (plan : Holed) → AreTestedIn tested tables plan → denote_plan tested plan ≡ denote_plan tables plan }
{}

/// Tables whose rows fit the types that a relation reads them as are well kinded.
pub fn tested_tables_are_well_kinded()
    ensures { (tables : Tables) (rel : Rel) → AreFitting tables rel → AreWellKinded tables rel }
{}

/// Each read relation of a well-typed plan has as many names as types, and these are of valid kinds.
pub fn reads_are_shaped()
    ensures { (plan : Holed) → IsWellTyped plan → AllByRecursion IsShaped (reads_of plan) }
{}

/// Of the opened read relations of a well-typed plan each has its own table: no other has its number.
pub fn reads_have_their_own_tables()
    ensures { (plan : Holed) (opened : List Opened) → IsWellTyped plan → AreOpened plan opened → AllByRecursion (HasOwnTable opened) opened }
{}

/// So their tested tables are the tested rows of their tables, for each read relation of the plan.
pub fn reads_have_tested_tables()
    ensures { (plan : Holed) (opened : List Opened) → IsWellTyped plan → AreOpened plan opened → AllByRecursion (IsTestedTable (tested_tables opened) (tables_of opened)) (reads_of plan) }
{}

/// And so for the reads of each subquery's relation and of the main one.
pub fn opened_tables_are_tested()
    ensures { (plan : Holed) (opened : List Opened) → IsWellTyped plan → AreOpened plan opened → AreTestedIn (tested_tables opened) (tables_of opened) plan }
{}

/// A well-typed plan denotes over the tested tables what it denotes over the tables.
pub fn opened_tables_denote_alike()
    ensures { (plan : Holed) (opened : List Opened) → IsWellTyped plan → AreOpened plan opened → denote_plan (tested_tables opened) plan ≡ denote_plan (tables_of opened) plan }
{}

/// And these are well kinded, as a plan's rows fit its columns, where the tested rows fit the types of their read relation.
pub fn opened_tables_are_well_kinded()
    ensures { (plan : Holed) (opened : List Opened) → IsWellTyped plan → AreOpened plan opened → AllByRecursion HasFittingRows opened → AreWellKindedIn (tested_tables opened) plan }
{}
