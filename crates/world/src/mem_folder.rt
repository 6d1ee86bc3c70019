// A folder in memory, with failures that a test can plan.
ghost use Rattle.std.specs.Prelude.{◌≡◌, ◌-◌, ◌≤◌, ◌↔◌, ◌++◌, ◌∷◌, [], Some, None, Err, true, false, IsTrue, IsSomeAnd, OnOk, OnErr, IfOk, IfErr, IfSome, if◌then◌else◌, is_ok, take};
ghost use Rattle.std.specs.Option.{option_copied, option_map};
ghost use Rattle.std.specs.FinMap as map;
ghost use Rattle.world.specs.Counts.{HasCause, IsStill, sum_of_counts};
ghost use Rattle.world.specs.Files.{AppendLeaves, Has, IsLookup, appended, written};
ghost use Rattle.world.specs.Lent.{lent_after};
ghost use Rattle.world.specs.Planned.{IsPlanned, appends_after, failed_append, for_reader, is_named};
ghost use Rattle.world.specs.Reads.{IsFresh, joined_reads};
ghost use Rattle.world.specs.Told.{Told, Plan, no_failures};

use crate::file_table::FileTable;
use crate::lent::one_more;
use crate::mem_reader::MemReader;
use crate::plan::FailurePlan;
use crate::{Folder, FolderError};
use std::alloc::Global;
use std::marker::Model;
use std::sync::Arc;
use sub_types::{NoMemory, Word};

/// A folder in memory. It tells its files, reads and counts, and fails where a test planned it.
#[derive(Drop)]
pub struct MemFolder {
    alloc: Global,
    files: FileTable,
    reads: Vec<(u64, u64)>,
    read_faults: u64,
    write_faults: u64,
    plan: FailurePlan,
    appended: u32,
    lent: u64,
}

impl Model for MemFolder {
    ghost use Rattle.world.specs.Told.{Told, told_code};

    ghost Value = { Told };

    ghost coded = { told_code };

    ghost use Rattle.world.specs.PlanView.{plan_of};

    ghost view = { λ folder. record {
      files = folder.files;
      reads = folder.reads.items;
      read_faults = folder.read_faults;
      write_faults = folder.write_faults;
      plan = plan_of folder.plan;
      appended = folder.appended;
      lent = folder.lent;
    } };
}

impl MemFolder {
    /// No files and no planned failures.
    pub fn new(alloc: Global) -> MemFolder
        ensures { result ≡ record { files = map.empty; reads = []; read_faults = 0; write_faults = 0; plan = no_failures; appended = 0; lent = 0 } }
    {
        MemFolder {
            alloc,
            files: FileTable::new(alloc),
            reads: Vec::new(alloc),
            read_faults: 0,
            write_faults: 0,
            plan: FailurePlan::new(alloc),
            appended: 0,
            lent: 0,
        }
    }

    /// Sets a file.
    pub fn put_file(&mut self, name: &str, bytes: &[u8]) -> Result<(), NoMemory>
        ensures ok { OnOk result (self.new ≡ record self.old { files = map.insert self.old.files name.now bytes.now }) }
        ensures err { OnErr result (self.new ≡ self.old) }
    {
        self.files.put(name, bytes.to_vec(self.alloc)?)
    }

    /// The named file, or `None` where it isn't there.
    pub fn file(&self, name: &str) -> Option<&[u8]>
        ensures { option_copied result ≡ map.get self.now.files name.now }
    {
        self.files.file(name)
    }

    /// The reads of the readers that were given back.
    pub fn reads(&self) -> &[(u64, u64)]
        ensures { result.now ≡ self.now.reads }
    {
        &self.reads
    }

    /// How many readers were given and not given back.
    pub fn lent(&self) -> u64
        ensures { result ≡ self.now.lent }
    {
        self.lent
    }

    /// Lets the `read_at` with index `k` of each reader of that name fail.
    pub fn fail_read(&mut self, name: &str, k: u32) -> Result<(), NoMemory>
        ensures ok { OnOk result (self.new ≡ record self.old { plan = record self.old.plan { reads = self.old.plan.reads ++ (name.now, k) ∷ [] } }) }
        ensures err { OnErr result (self.new ≡ self.old) }
    {
        let word = Word::of(self.alloc, name)?;
        self.plan.reads.push((word, k))?;
        Ok(())
    }

    /// Lets each `read_at` of that name that begins at that place fail.
    pub fn fail_at(&mut self, name: &str, at: u64) -> Result<(), NoMemory>
        ensures ok { OnOk result (self.new ≡ record self.old { plan = record self.old.plan { places = self.old.plan.places ++ (name.now, at) ∷ [] } }) }
        ensures err { OnErr result (self.new ≡ self.old) }
    {
        let word = Word::of(self.alloc, name)?;
        self.plan.places.push((word, at))?;
        Ok(())
    }

    /// Lets each `reader` of that name fail.
    pub fn fail_open(&mut self, name: &str) -> Result<(), NoMemory>
        ensures ok { OnOk result (self.new ≡ record self.old { plan = record self.old.plan { opens = self.old.plan.opens ++ name.now ∷ [] } }) }
        ensures err { OnErr result (self.new ≡ self.old) }
    {
        let word = Word::of(self.alloc, name)?;
        self.plan.opens.push(word)?;
        Ok(())
    }

    /// Lets each `len` of that name fail.
    pub fn fail_len(&mut self, name: &str) -> Result<(), NoMemory>
        ensures ok { OnOk result (self.new ≡ record self.old { plan = record self.old.plan { lens = self.old.plan.lens ++ name.now ∷ [] } }) }
        ensures err { OnErr result (self.new ≡ self.old) }
    {
        let word = Word::of(self.alloc, name)?;
        self.plan.lens.push(word)?;
        Ok(())
    }

    /// Lets the `again` with index `k`, counted per reader, fail.
    pub fn fail_again(&mut self, name: &str, k: u32) -> Result<(), NoMemory>
        ensures ok { OnOk result (self.new ≡ record self.old { plan = record self.old.plan { agains = self.old.plan.agains ++ (name.now, k) ∷ [] } }) }
        ensures err { OnErr result (self.new ≡ self.old) }
    {
        let word = Word::of(self.alloc, name)?;
        self.plan.agains.push((word, k))?;
        Ok(())
    }

    /// Lets the next `create` fail and leave its file as it was.
    pub fn fail_create(&mut self)
        ensures { self.new ≡ record self.old { plan = record self.old.plan { create = true } } }
    {
        self.plan.create = true;
    }

    /// Lets the append with index `k`, counted over the folder, fail and keep the first `kept` bytes of its piece, or the
    /// whole piece where it is shorter.
    pub fn fail_append(&mut self, k: u32, kept: u32) -> Result<(), NoMemory>
        ensures ok { OnOk result (self.new ≡ record self.old { plan = record self.old.plan { appends = self.old.plan.appends ++ (k, kept) ∷ [] } }) }
        ensures err { OnErr result (self.new ≡ self.old) }
    {
        self.plan.appends.push((k, kept))?;
        Ok(())
    }

    /// Drops all planned failures. The counts stay.
    pub fn clear(&mut self)
        ensures { self.new ≡ record self.old { plan = no_failures } }
    {
        self.plan = FailurePlan::new(self.alloc);
    }

    // One more failed read.
    fn read_fault(&mut self) -> FolderError
        ensures error { result ≡ FolderError.Failed }
        ensures count { self.new ≡ record self.old { read_faults = sum_of_counts self.old.read_faults 1 } }
        ensures never_falls { self.old.read_faults ≤ self.new.read_faults }
    {
        self.read_faults = self.read_faults.saturating_add(1);
        FolderError::Failed
    }

    // One more failed write.
    fn write_fault(&mut self) -> FolderError
        ensures error { result ≡ FolderError.Failed }
        ensures count { self.new ≡ record self.old { write_faults = sum_of_counts self.old.write_faults 1 } }
        ensures never_falls { self.old.write_faults ≤ self.new.write_faults }
    {
        self.write_faults = self.write_faults.saturating_add(1);
        FolderError::Failed
    }
}

#[tactic(auto, unfolding(crate::specs::Files::written, crate::specs::Files::appended, crate::specs::Files::Has, crate::specs::Files::IsLookup, crate::specs::Reads::joined_reads, crate::specs::Reads::IsUnread))]
impl Folder for MemFolder {
    type R = MemReader;

    ghost files = { λ folder. Some folder.files };

    ghost reads = { λ folder. Some folder.reads };

    ghost read_faults = { λ folder. folder.read_faults };

    ghost write_faults = { λ folder. folder.write_faults };

    ghost lent = { λ folder. folder.lent };

    fn reader(&mut self, _alloc: Global, name: &str) -> Result<Option<MemReader>, FolderError>
        ensures found { IfOk result (λ found. IsLookup (Some self.old.files) name.now (option_map (λ reader. Some reader.bytes) found)) }
        ensures fresh { IfOk result (λ found. IfSome found (λ reader. IsFresh reader.faults (Some reader.reads))) }
        ensures plan { IfOk result (λ found. IfSome found (λ reader. IsPlanned (for_reader self.old.plan name.now) reader)) }
        ensures planned { (result ≡ Err FolderError.Failed) ↔ IsTrue (is_named name.now self.old.plan.opens) }
        ensures cause { HasCause FolderError.Failed self.old.read_faults self.new.read_faults result }
        ensures still { IsStill self.old.read_faults self.new.read_faults result }
        ensures lent { self.new.lent ≡ lent_after result self.old.lent }
        ensures others { self.new ≡ record self.old { read_faults = self.new.read_faults; lent = self.new.lent } }
    {
        if self.plan.fails_to_open(name) {
            return Err(self.read_fault());
        }
        let Some(bytes) = self.files.file(name) else {
            return Ok(None);
        };
        let bytes = Arc::new(self.alloc, bytes.to_vec(self.alloc)?)?;
        let plan = self.plan.of_reader(self.alloc, name)?;
        self.lent = one_more(self.lent)?;
        Ok(Some(MemReader::new(self.alloc, bytes, plan)))
    }

    fn give_back(&mut self, _alloc: Global, reader: MemReader) -> Result<(), NoMemory>
        ensures reads { Some self.new.reads ≡ (if is_ok result then joined_reads (Some self.old.reads) (Some reader.reads) else Some self.old.reads) }
        ensures never_falls { self.old.read_faults ≤ self.new.read_faults }
        ensures others { self.new ≡ record self.old { reads = self.new.reads; read_faults = sum_of_counts self.old.read_faults reader.faults; lent = self.old.lent - 1 } }
    {
        self.lent = self.lent.saturating_sub(1);
        self.read_faults = self.read_faults.saturating_add(reader.faults());
        self.reads.extend_from_slice(reader.reads())?;
        Ok(())
    }

    fn create(&mut self, _alloc: Global, name: &str) -> Result<(), FolderError>
        ensures ok { OnOk result (Some self.new.files ≡ written (Some self.old.files) name.now []) }
        ensures err { OnErr result (self.new.files ≡ self.old.files) }
        ensures planned { (result ≡ Err FolderError.Failed) ↔ IsTrue self.old.plan.create }
        ensures cause { HasCause FolderError.Failed self.old.write_faults self.new.write_faults result }
        ensures still { IsStill self.old.write_faults self.new.write_faults result }
        ensures others { self.new ≡ record self.old { files = self.new.files; write_faults = self.new.write_faults; plan = record self.old.plan { create = false } } }
    {
        if self.plan.create {
            self.plan.create = false;
            return Err(self.write_fault());
        }
        Ok(self.files.put(name, Vec::new(self.alloc))?)
    }

    fn append(&mut self, _alloc: Global, name: &str, piece: &[u8]) -> Result<(), FolderError>
        requires { Has (Some self.old.files) name.now }
        ensures ok { OnOk result (Some self.new.files ≡ appended (Some self.old.files) name.now piece.now) }
        ensures err { IfErr result (λ error. AppendLeaves error (Some self.old.files) (Some self.new.files) name.now piece.now) }
        ensures kept { result ≡ Err FolderError.Failed → IsSomeAnd (failed_append self.old.plan self.old.appended) (λ kept. Some self.new.files ≡ appended (Some self.old.files) name.now (take kept piece.now)) }
        ensures planned { OnOk result (failed_append self.old.plan self.old.appended ≡ None) }
        ensures cause { HasCause FolderError.Failed self.old.write_faults self.new.write_faults result }
        ensures still { IsStill self.old.write_faults self.new.write_faults result }
        ensures others { self.new ≡ record self.old { files = self.new.files; write_faults = self.new.write_faults; appended = self.new.appended } }
        ensures counted { self.new.appended ≡ appends_after result self.old.appended }
    {
        match self.plan.failed_append(self.appended) {
            None => {
                self.files.append(name, piece)?;
                self.appended = self.appended.saturating_add(1);
                Ok(())
            }
            Some(kept) => {
                let kept = piece.len().min(kept as usize);
                self.files.append(name, &piece[..kept])?;
                self.appended = self.appended.saturating_add(1);
                Err(self.write_fault())
            }
        }
    }
}
