// The current folder.
ghost use Rattle.std.specs.Prelude.{◌≡◌, ◌-◌, ◌≤◌, ◌⊎◌, [], None, Some, IsTrue, IfOk, IfErr, IfSome, OnOk, if◌then◌else◌, is_ok};
ghost use Rattle.std.specs.Option.{option_map};
ghost use Rattle.std.specs.FinSet as set;
ghost use Rattle.std_folder.specs.Names.{open_after, IsShared};
ghost use Rattle.world.specs.Counts.{HasCause, IsStill, sum_of_counts};
ghost use Rattle.world.specs.Files.{appended, written, IsLookup, CreateLeaves, AppendLeaves};
ghost use Rattle.world.specs.Lent.{lent_after};
ghost use Rattle.world.specs.Reads.{IsFresh, joined_reads};

use crate::open_files::{OpenFiles, SharedFile};
use crate::out_file::OutFile;
use crate::reader::StdReader;
use std::alloc::Global;
use std::fs::File;
use std::io::{self, ErrorKind};
use std::marker::Model;
use std::rt::Files;
use sub_types::NoMemory;
use world::{Folder, FolderError};

/// The current folder. A file that is read is open once, by its name: its readers share the handle, which is closed when
/// the last of them is given back, or with the folder. The file that was last created or appended to stays open for
/// further appends, until another takes its place. So there are no more handles than names of files, unless one is
/// created that is read just then. Where the system has no handle left, that is a failed read or write like any other.
#[derive(Drop)]
pub struct StdFolder<'a, R> {
    files: &'a R,
    reading: OpenFiles,
    out: Option<OutFile>,
    read_faults: u64,
    write_faults: u64,
    lent: u64,
}

impl<'a, R> Model for StdFolder<'a, R> {
    ghost use Rattle.std_folder.specs.Seen.{SeenFolder, folder_code};

    ghost Value = { SeenFolder };

    ghost coded = { folder_code };

    ghost view = { λ folder. record {
      reading = folder.reading;
      out = folder.out;
      read_faults = folder.read_faults;
      write_faults = folder.write_faults;
      lent = folder.lent;
    } };
}

impl<'a, R: Files<File = File> + Alloc<A = Global>> StdFolder<'a, R> {
    /// The current folder, of which no file is open.
    pub fn new(rt: &'a R) -> StdFolder<'a, R>
        ensures { result ≡ record { reading = set.empty; out = None; read_faults = 0; write_faults = 0; lent = 0 } }
    {
        StdFolder {
            files: rt,
            reading: OpenFiles::new(rt.alloc()),
            out: None,
            read_faults: 0,
            write_faults: 0,
            lent: 0,
        }
    }
}

impl<'a, R: Files<File = File>> StdFolder<'a, R> {
    // A share of the file of that name, opened where it isn't yet, or `None` where it isn't there.
    fn share(&mut self, name: &str) -> Result<Option<SharedFile>, FolderError>
        ensures shared { IsTrue (set.contains self.old.reading name.now) → IsShared result }
        ensures cause { HasCause FolderError.Failed self.old.read_faults self.new.read_faults result }
        ensures still { IsStill self.old.read_faults self.new.read_faults result }
        ensures others { self.new ≡ record self.old { reading = open_after result self.old.reading name.now; read_faults = self.new.read_faults } }
    {
        if let Some(shared) = self.reading.share(name)? {
            return Ok(Some(shared));
        }
        match opened(self.files, name) {
            Ok(file) => Ok(Some(self.reading.keep(name, file)?)),
            Err(error) if error.kind() == ErrorKind::NotFound => Ok(None),
            Err(_) => Err(self.read_fault()),
        }
    }

    // Makes the named file empty, and keeps it open.
    fn make(&mut self, alloc: Global, name: &str) -> Result<(), FolderError>
        ensures ok { OnOk result (self.new.out ≡ Some name.now) }
        ensures others { self.new ≡ record self.old { reading = set.remove self.old.reading name.now; out = self.new.out } }
    {
        self.out = None;
        self.reading.forget(name);
        self.out = Some(OutFile::create(self.files, alloc, name)?);
        Ok(())
    }

    // Adds the piece at the end of the named file, and keeps it open.
    fn add(&mut self, alloc: Global, name: &str, piece: &[u8]) -> Result<(), FolderError>
        ensures ok { OnOk result (self.new.out ≡ Some name.now) }
        ensures others { self.new ≡ record self.old { out = self.new.out } }
    {
        let mut out = self.take_out(alloc, name)?;
        let added = out.append(piece);
        self.out = Some(out);
        added
    }

    // The named file for appending: the one that is open, or else opened in its place.
    fn take_out(&mut self, alloc: Global, name: &str) -> Result<OutFile, FolderError>
        ensures name { IfOk result (λ out. out ≡ name.now) }
        ensures others { self.new ≡ record self.old { out = None } }
    {
        match self.out.take() {
            Some(out) if out.is_named(name) => Ok(out),
            _ => OutFile::open(self.files, alloc, name),
        }
    }

    // One more failed read.
    fn read_fault(&mut self) -> FolderError
        ensures error { result ≡ FolderError.Failed }
        ensures count { self.new ≡ record self.old { read_faults = sum_of_counts self.old.read_faults 1 } }
        ensures never_falls { self.old.read_faults ≤ self.new.read_faults }
    {
        self.read_faults = self.read_faults.saturating_add(1);
        FolderError::Failed
    }

    // Counts a failed write.
    fn counted(&mut self, written: Result<(), FolderError>) -> Result<(), FolderError>
        ensures same { result ≡ written }
        ensures cause { HasCause FolderError.Failed self.old.write_faults self.new.write_faults result }
        ensures still { IsStill self.old.write_faults self.new.write_faults result }
        ensures others { self.new ≡ record self.old { write_faults = self.new.write_faults } }
    {
        if matches!(written, Err(FolderError::Failed)) {
            self.write_faults = self.write_faults.saturating_add(1);
        }
        written
    }
}

#[tactic(auto, unfolding(world::specs::Files::written, world::specs::Files::appended, world::specs::Files::Has, world::specs::Files::IsLookup, world::specs::Reads::joined_reads, world::specs::Reads::IsUnread))]
impl<R: Files<File = File>> Folder for StdFolder<'_, R> {
    type R = StdReader;

    ghost files = { λ _. None };

    ghost reads = { λ _. None };

    ghost read_faults = { λ folder. folder.read_faults };

    ghost write_faults = { λ folder. folder.write_faults };

    ghost lent = { λ folder. folder.lent };

    /// A reader of the named file, or `None` where it isn't there. Where the file is open for reading it is shared:
    /// nothing is opened, so no read fails.
    fn reader(&mut self, _alloc: Global, name: &str) -> Result<Option<StdReader>, FolderError>
        ensures shared { IsTrue (set.contains self.old.reading name.now) → IsShared result }
        ensures reading { self.new.reading ≡ open_after result self.old.reading name.now }
        ensures found { IfOk result (λ found. IsLookup None name.now (option_map (λ _. None) found)) }
        ensures fresh { IfOk result (λ found. IfSome found (λ reader. IsFresh reader.faults None)) }
        ensures cause { HasCause FolderError.Failed self.old.read_faults self.new.read_faults result }
        ensures still { IsStill self.old.read_faults self.new.read_faults result }
        ensures lent { self.new.lent ≡ lent_after result self.old.lent }
        ensures out { self.new.out ≡ self.old.out }
        ensures write_faults { self.new.write_faults ≡ self.old.write_faults }
    {
        // So many readers as a count can't hold don't lie in any memory.
        let lent = self.lent.checked_add(1).ok_or(FolderError::NoMemory)?;
        let Some(shared) = self.share(name)? else {
            return Ok(None);
        };
        self.lent = lent;
        Ok(Some(StdReader::new(shared)))
    }

    /// Adds the reader's faults, and closes its file where it was the last that shared it.
    fn give_back(&mut self, _alloc: Global, reader: StdReader) -> Result<(), NoMemory>
        ensures reading { (self.new.reading ≡ self.old.reading) ⊎ (self.new.reading ≡ set.remove self.old.reading reader.name) }
        ensures faults { self.new.read_faults ≡ sum_of_counts self.old.read_faults reader.faults }
        ensures never_falls { self.old.read_faults ≤ self.new.read_faults }
        ensures reads { None ≡ (if is_ok result then joined_reads None None else None) }
        ensures lent { self.new.lent ≡ self.old.lent - 1 }
        ensures out { self.new.out ≡ self.old.out }
        ensures write_faults { self.new.write_faults ≡ self.old.write_faults }
    {
        let (shared, faults) = reader.into_parts();
        self.reading.take_back(shared);
        self.lent = self.lent.saturating_sub(1);
        self.read_faults = self.read_faults.saturating_add(faults);
        Ok(())
    }

    /// Makes the named file empty, and keeps it open for `append`. Its readers keep the handle that they have, and
    /// a later one opens the file anew.
    fn create(&mut self, alloc: Global, name: &str) -> Result<(), FolderError>
        ensures out { OnOk result (self.new.out ≡ Some name.now) }
        ensures reading { self.new.reading ≡ set.remove self.old.reading name.now }
        ensures ok { OnOk result (None ≡ written None name.now []) }
        ensures err { IfErr result (λ error. CreateLeaves error None None name.now) }
        ensures cause { HasCause FolderError.Failed self.old.write_faults self.new.write_faults result }
        ensures still { IsStill self.old.write_faults self.new.write_faults result }
        ensures lent { self.new.lent ≡ self.old.lent }
        ensures read_faults { self.new.read_faults ≡ self.old.read_faults }
    {
        let made = self.make(alloc, name);
        self.counted(made)
    }

    /// Adds the piece at the end of the named file, which is opened where it isn't the one that was last created or
    /// appended to, and is kept open in its place. It must be there.
    fn append(&mut self, alloc: Global, name: &str, piece: &[u8]) -> Result<(), FolderError>
        ensures out { OnOk result (self.new.out ≡ Some name.now) }
        ensures reading { self.new.reading ≡ self.old.reading }
        ensures ok { OnOk result (None ≡ appended None name.now piece.now) }
        ensures err { IfErr result (λ error. AppendLeaves error None None name.now piece.now) }
        ensures cause { HasCause FolderError.Failed self.old.write_faults self.new.write_faults result }
        ensures still { IsStill self.old.write_faults self.new.write_faults result }
        ensures lent { self.new.lent ≡ self.old.lent }
        ensures read_faults { self.new.read_faults ≡ self.old.read_faults }
    {
        let added = self.add(alloc, name, piece);
        self.counted(added)
    }
}

// The open file. Anything else than a plain file, as a directory, isn't opened.
fn opened<R: Files<File = File>>(files: &R, name: &str) -> io::Result<File> {
    let file = File::open(files, name)?;
    if file.metadata()?.is_file() {
        Ok(file)
    } else {
        Err(io::Error::from(ErrorKind::InvalidInput))
    }
}
