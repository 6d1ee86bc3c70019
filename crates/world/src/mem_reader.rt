// A reader of a file in memory, with failures that a test planned.
ghost use Rattle.std.specs.Prelude.{◌≡◌, ◌≢◌, ◌+◌, ◌≤◌, ◌↔◌, [], Some, Err, IsTrue, IfOk, OnOk, length, take, drop};
ghost use Rattle.std.specs.Arc.{arc_value};
ghost use Rattle.world.specs.Counts.{HasCause, IsStill, sum_of_counts};
ghost use Rattle.world.specs.Planned.{IsPlanned, fails_read, is_among, next_call};
ghost use Rattle.world.specs.PlanView.{readers_plan_of};
ghost use Rattle.world.specs.Reads.{reads_after, IsFresh};

use crate::plan::ReaderPlan;
use crate::{FolderError, Reader};
use std::alloc::Global;
use std::marker::Model;
use std::sync::Arc;
use sub_types::NoMemory;

/// A reader of a file in memory. Its bytes are shared with its further readers, which have the same planned failures.
#[derive(Drop)]
pub struct MemReader {
    alloc: Global,
    bytes: Arc<Vec<u8>>,
    reads: Vec<(u64, u64)>,
    faults: u64,
    plan: ReaderPlan,
    read_calls: u32,
    again_calls: u32,
}

impl Model for MemReader {
    ghost use Rattle.std.specs.Arc.{arc_value};
    ghost use Rattle.world.specs.Told.{Opened, opened_code};
    ghost use Rattle.world.specs.PlanView.{readers_plan_of};

    ghost Value = { Opened };

    ghost coded = { opened_code };

    ghost view = { λ reader. record {
      bytes = (arc_value reader.bytes).items;
      reads = reader.reads.items;
      faults = reader.faults;
      plan = readers_plan_of reader.plan;
      read_calls = reader.read_calls;
      again_calls = reader.again_calls;
    } };
}

impl MemReader {
    // A reader of these bytes, which was asked for nothing yet.
    pub(crate) fn new(alloc: Global, bytes: Arc<Vec<u8>>, plan: ReaderPlan) -> MemReader
        ensures { result ≡ record { bytes = (arc_value bytes).items; reads = []; faults = 0; plan = readers_plan_of plan; read_calls = 0; again_calls = 0 } }
    {
        MemReader {
            alloc,
            bytes,
            reads: Vec::new(alloc),
            faults: 0,
            plan,
            read_calls: 0,
            again_calls: 0,
        }
    }

    /// The pairs (place, length) that were asked for.
    pub fn reads(&self) -> &[(u64, u64)]
        ensures { result.now ≡ self.now.reads }
    {
        &self.reads
    }

    // How often a call failed.
    pub(crate) fn faults(&self) -> u64
        ensures { result ≡ self.now.faults }
    {
        self.faults
    }

    // One more fault.
    fn fault(&mut self) -> FolderError
        ensures error { result ≡ FolderError.Failed }
        ensures count { self.new ≡ record self.old { faults = sum_of_counts self.old.faults 1 } }
        ensures never_falls { self.old.faults ≤ self.new.faults }
    {
        self.faults = self.faults.saturating_add(1);
        FolderError::Failed
    }
}

#[tactic(auto, unfolding(crate::specs::Reads::joined_reads, crate::specs::Reads::reads_after, crate::specs::Reads::IsUnread))]
impl Reader for MemReader {
    ghost bytes = { λ reader. Some reader.bytes };

    ghost reads = { λ reader. Some reader.reads };

    ghost faults = { λ reader. reader.faults };

    fn len(&mut self) -> Result<u64, FolderError>
        ensures len { IfOk result (λ len. len ≡ length self.old.bytes) }
        ensures memory { result ≢ Err FolderError.NoMemory }
        ensures planned { (result ≡ Err FolderError.Failed) ↔ IsTrue self.old.plan.len }
        ensures cause { HasCause FolderError.Failed self.old.faults self.new.faults result }
        ensures still { IsStill self.old.faults self.new.faults result }
        ensures others { self.new ≡ record self.old { faults = self.new.faults } }
    {
        if self.plan.len {
            return Err(self.fault());
        }
        Ok(self.bytes.len() as u64)
    }

    fn read_at(&mut self, _alloc: Global, at: u64, into: &mut [u8]) -> Result<(), FolderError>
        requires { at + length into.old ≤ length self.old.bytes }
        ensures read { OnOk result (into.new ≡ take (length into.old) (drop at self.old.bytes)) }
        ensures unplanned { result ≡ Err FolderError.Failed → IsTrue (fails_read self.old.plan self.old.read_calls at) }
        ensures planned { IsTrue (fails_read self.old.plan self.old.read_calls at) → OnOk result ⊥ }
        ensures reads { Some self.new.reads ≡ reads_after result (Some self.old.reads) at (length into.old) }
        ensures cause { HasCause FolderError.Failed self.old.faults self.new.faults result }
        ensures still { IsStill self.old.faults self.new.faults result }
        ensures others { self.new ≡ record self.old { reads = self.new.reads; faults = self.new.faults; read_calls = next_call self.old.read_calls } }
    {
        let index = self.read_calls;
        self.read_calls = index.saturating_add(1);
        if self.reads.push((at, into.len() as u64)).is_err() {
            return Err(FolderError::NoMemory);
        }
        if self.plan.fails_to_read(index, at) {
            return Err(self.fault());
        }
        let from = at as usize;
        into.copy_from_slice(&self.bytes[from..from + into.len()]);
        Ok(())
    }

    fn again(&mut self, _alloc: Global) -> Result<Self, FolderError>
        ensures same { IfOk result (λ second. Some second.bytes ≡ Some self.old.bytes) }
        ensures fresh { IfOk result (λ second. IsFresh second.faults (Some second.reads)) }
        ensures plan { IfOk result (IsPlanned self.old.plan) }
        ensures planned { (result ≡ Err FolderError.Failed) ↔ IsTrue (is_among self.old.again_calls self.old.plan.agains) }
        ensures cause { HasCause FolderError.Failed self.old.faults self.new.faults result }
        ensures still { IsStill self.old.faults self.new.faults result }
        ensures others { self.new ≡ record self.old { faults = self.new.faults; again_calls = next_call self.old.again_calls } }
    {
        let index = self.again_calls;
        self.again_calls = index.saturating_add(1);
        if self.plan.fails_again(index) {
            return Err(self.fault());
        }
        let bytes = Arc::try_clone(&self.bytes)?;
        let plan = self.plan.copy()?;
        Ok(MemReader::new(self.alloc, bytes, plan))
    }

    fn absorb(&mut self, _alloc: Global, other: Self) -> Result<(), NoMemory> {
        self.faults = self.faults.saturating_add(other.faults);
        self.reads.extend_from_slice(&other.reads)?;
        Ok(())
    }
}
