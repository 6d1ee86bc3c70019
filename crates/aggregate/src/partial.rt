// Partial states of aggregates.
ghost use Rattle.std.specs.Prelude.{◌≡◌, [], Some, Ok, List, true, false, All, IfOk, IsErr, IsOk, OnOk, OnErr};
ghost use Rattle.sub_types.specs.declared.fault.Fault.{Fault as Failure};
ghost use Rattle.sub_types.specs.declared.kind.Ty.{Ty};
ghost use Rattle.sub_types.specs.Stream.{Stream, rows_alone, followed_by};
ghost use Rattle.sub_types.specs.Value.{Fits};
ghost use Rattle.plan_denote.specs.Computed.{Row};
ghost use Rattle.batch.specs.BatchRows.{rows_of, stream_of_piece, types_of};
ghost use Rattle.plan_pipes.specs.RowMeaning.{aggregated_by};
ghost use Rattle.aggregate.specs.Finals.{types_by};
ghost use Rattle.aggregate.specs.States.{IsOver, IsOf, IsFor, IsForSome, AreFor, is_lost, is_spent, fault_in, entries_by};

use crate::finals::state_rows;
use crate::folding::folded;
use crate::keeping::{keepings_of, types_of};
use crate::merging::merged;
use crate::state::State;
use batch::Piece;
use group_states::Groups;
use rel_specs::AggSpec;
use row_batches::rows_to_batch;
use std::alloc::Global;
use std::mem;
use sub_types::{Fault, NoMemory};

/// What is known of the rows of an aggregate so far. Contracts say by `IsOf` of which rows it is. After a fault it keeps that fault,
/// and after `NoMemory` nothing is known.
#[derive(Drop)]
pub struct Partial {
    pub(crate) state: State,
}

impl Partial {
    /// What is known of no rows.
    pub fn new(alloc: Global, spec: &AggSpec) -> Result<Partial, NoMemory>
        ensures of { IfOk result (λ partial. IsOf spec.now (rows_alone []) partial) }
        ensures over { (types : List Ty) → IsOver types spec.now → IfOk result (λ partial. IsFor types spec.now partial) }
    {
        let keepings = keepings_of(alloc, spec.measures.as_slice())?;
        let groups = Groups::new(alloc, !spec.groups.is_empty(), keepings.as_slice())?;
        Ok(Partial {
            state: State::Known(groups),
        })
    }

    /// Takes the rows of a piece, and answers the first fault of all rows so far, or the piece's end: a row's grouping expressions
    /// come before its measures, and of each measure the filter and then the argument.
    pub fn fold_batch(&mut self, spec: &AggSpec, input: &Piece) -> Result<Option<Fault>, NoMemory>
        requires over { IsFor (types_of input.now.batch) spec.now self.old }
        requires fit { All (Fits (types_of input.now.batch)) (rows_of input.now.batch) }
        ensures of { (rows : Stream Row) → IsOf spec.now rows self.old → OnOk result (IsOf spec.now (followed_by rows (stream_of_piece input.now)) self.new) }
        ensures over { IsFor (types_of input.now.batch) spec.now self.new }
        ensures end { (rows : Stream Row) → IsOf spec.now rows self.old → IfOk result (λ end. end ≡ (entries_by spec.now (followed_by rows (stream_of_piece input.now))).end) }
        ensures again { (fault : Failure) → fault_in self.old ≡ Some fault → (result ≡ Ok (Some fault)) × (self.new ≡ self.old) }
        ensures lost { is_lost self.old ≡ true → IsErr result }
        ensures err { OnErr result (is_lost self.new ≡ true) }
    {
        let alloc = *spec.groups.allocator();
        let state = mem::replace(&mut self.state, State::Lost);
        let next = folded(alloc, spec, state, input)?;
        self.state = next;
        Ok(self.state.end())
    }

    /// What is known of the rows of both, where the later one is of the rows behind. The first fault stays.
    pub fn merge(&mut self, spec: &AggSpec, later: Partial) -> Result<(), NoMemory>
        requires over { AreFor spec.now self.old later }
        ensures of { (rows more : Stream Row) → IsOf spec.now rows self.old → IsOf spec.now more later → OnOk result (IsOf spec.now (followed_by rows more) self.new) }
        ensures over { (types : List Ty) → IsFor types spec.now self.old → IsFor types spec.now later → IsFor types spec.now self.new }
        ensures kept { (fault : Failure) → fault_in self.old ≡ Some fault → IsOk result × (self.new ≡ self.old) }
        ensures ended { (fault : Failure) → is_spent self.old ≡ false → fault_in later ≡ Some fault → IsOk result × (fault_in self.new ≡ Some fault) }
        ensures lost { is_lost self.old ≡ true → IsErr result }
        ensures later_lost { is_spent self.old ≡ false → is_lost later ≡ true → IsErr result }
        ensures err { OnErr result (is_lost self.new ≡ true) }
    {
        let alloc = *spec.groups.allocator();
        let state = mem::replace(&mut self.state, State::Lost);
        let both = merged(alloc, spec, state, later.state)?;
        self.state = both;
        Ok(())
    }

    /// The rows of the aggregate: a group's key and then its measures, the groups in the order in which they first appear, up to the
    /// first fault of a measure. A fault of the rows so far leaves no rows and that fault. The batch has the number 0.
    pub fn finals(self, spec: &AggSpec) -> Result<Piece, NoMemory>
        requires over { IsForSome spec.now self }
        ensures stream { (rows : Stream Row) → IsOf spec.now rows self → IfOk result (λ piece. stream_of_piece piece ≡ aggregated_by spec.now rows) }
        ensures types { IfOk result (λ piece. types_of piece.batch ≡ types_by spec.now) }
        ensures number { IfOk result (λ piece. piece.batch.number ≡ 0) }
        ensures lost { is_lost self ≡ true → IsErr result }
    {
        let alloc = *spec.groups.allocator();
        let types = types_of(alloc, spec)?;
        let out = state_rows(alloc, spec, &self.state)?;
        let batch = rows_to_batch(alloc, types.as_slice(), out.rows.as_slice(), 0)?;
        Ok(Piece {
            batch,
            end: out.end,
        })
    }
}
