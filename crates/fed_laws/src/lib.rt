//! Laws of what feeds pipelines that read relations feed: no read relation feeds two of a relation whose numbers differ, and where each
//! was fed by something that may be a table, there are tables of which the read relations read just that. `specs/Fed.antt` says what
//! that means; `cut_laws/specs/Found.antt` has the read relations.
#![tactic(auto)]

ghost use Rattle.std.specs.Prelude.{ℕ, List, Option};
ghost use Rattle.sub_types.specs.Stream.{Stream};
ghost use Rattle.plan_typed.specs.declared.rel.Rel.{Rel};
ghost use Rattle.plan_typed.specs.Numbers.{numbers_of};
ghost use Rattle.well_typed.specs.WellTyped.{AllDiffer};
ghost use Rattle.plan_denote.specs.Rows.{Row};
ghost use Rattle.plan_pipes.specs.declared.pipe.Pipe.{Pipe};
ghost use Rattle.cut_flows.specs.Given.{fed_in};
ghost use Rattle.cut_laws.specs.Found.{ReadRel};
ghost use Rattle.cut_laws.specs.Reads.{reads_of};
ghost use Rattle.fed_laws.specs.Fed.{AreFedBy, HaveTables, IsKnown};

/// The numbers of the read relations of a relation differ where those of all its relations do.
pub fn read_numbers_differ()
    ensures { (rel : Rel) → AllDiffer (numbers_of rel) → AllDiffer (reads_of rel) }
{}

/// Where no read relation feeds two pipelines, and each that does was fed by its rows in the plan or by what may be its table, there are
/// tables that may be, of which the read relations read what fed them.
pub fn fed_pipes_have_tables()
    ensures { (known : ℕ → Option (Stream Row)) (reads : List ReadRel) (pipes : List Pipe) (given : List (Stream Row)) → AllDiffer (fed_in pipes) → AreFedBy (IsKnown known) reads pipes given → HaveTables (IsKnown known) reads pipes given }
{}
