// The files that are open for reading, by their names.
ghost use Rattle.std.specs.Prelude.{◌≡◌, ◌⊎◌, IfOk, IfSome, OnOk, OnErr, is_some};
ghost use Rattle.std.specs.FinSet as set;

use std::alloc::Global;
use std::collections::BTreeMap;
use std::fs::File;
use std::marker::Model;
use std::sync::{Arc, ArcStr};
use sub_types::NoMemory;

/// A share of an open file, seen as the name that it was opened by.
#[derive(Drop)]
pub(crate) struct SharedFile {
    name: ArcStr,
    file: Arc<File>,
}

impl Model for SharedFile {
    ghost use Rattle.std.specs.Prelude.{ℕ, List};
    ghost use Rattle.std.specs.Arc.{arc_str_bytes};
    ghost use Rattle.std.specs.Coded.{coded_ℕ, coded_list};

    ghost Value = { List ℕ };

    ghost coded = { coded_list coded_ℕ };

    ghost view = { λ shared. arc_str_bytes shared.name };
}

impl SharedFile {
    /// One more share of the same open file. It opens nothing.
    pub(crate) fn again(&self) -> Result<SharedFile, NoMemory>
        ensures { IfOk result (λ second. second ≡ self.now) }
    {
        Ok(SharedFile {
            name: self.name.clone()?,
            file: Arc::try_clone(&self.file)?,
        })
    }

    pub(crate) fn file(&self) -> &File {
        &self.file
    }
}

/// The files that are open for reading, seen as the set of their names.
#[derive(Drop)]
pub(crate) struct OpenFiles {
    alloc: Global,
    files: BTreeMap<String, SharedFile>,
}

impl Model for OpenFiles {
    ghost use Rattle.std.specs.Coded.{coded_ℕ, coded_list};
    ghost use Rattle.std.specs.FinSet as set;
    ghost use Rattle.std_folder.specs.Names.{Names, names_of};

    ghost Value = { Names };

    ghost coded = { set.code (coded_list coded_ℕ) };

    ghost view = { λ table. names_of table.files.entries };
}

impl OpenFiles {
    /// No file is open.
    pub(crate) fn new(alloc: Global) -> OpenFiles
        ensures { result ≡ set.empty }
    {
        OpenFiles {
            alloc,
            files: BTreeMap::new(alloc),
        }
    }

    /// A share of the file that is open by that name, or `None`.
    pub(crate) fn share(&self, name: &str) -> Result<Option<SharedFile>, NoMemory>
        ensures { IfOk result (λ found. is_some found ≡ set.contains self.now name.now) }
    {
        match self.files.get(name) {
            Some(kept) => Ok(Some(kept.again()?)),
            None => Ok(None),
        }
    }

    /// Keeps the file, which was opened by that name, and shares it.
    pub(crate) fn keep(&mut self, name: &str, file: File) -> Result<SharedFile, NoMemory>
        ensures ok { OnOk result (self.new ≡ set.insert self.old name.now) }
        ensures err { OnErr result (self.new ≡ self.old) }
    {
        let kept = SharedFile {
            name: ArcStr::from_str(self.alloc, name)?,
            file: Arc::new(self.alloc, file)?,
        };
        let shared = kept.again()?;
        let key = String::from_str(self.alloc, name)?;
        self.files.insert(key, kept)?;
        Ok(shared)
    }

    /// Shares the file of that name no more. Those that have a share of it keep it open.
    pub(crate) fn forget(&mut self, name: &str)
        ensures { self.new ≡ set.remove self.old name.now }
    {
        self.files.remove(name);
    }

    /// Takes a share back, and closes the file of its name where nobody shares it now.
    pub(crate) fn take_back(&mut self, shared: SharedFile)
        ensures { (self.new ≡ self.old) ⊎ (self.new ≡ set.remove self.old shared) }
    {
        let SharedFile { name, file } = shared;
        drop(file);
        if self.is_unshared(&name) {
            self.forget(&name);
        }
    }

    // Whether the file of that name is open and nobody shares it.
    fn is_unshared(&self, name: &str) -> bool {
        match self.files.get(name) {
            Some(kept) => Arc::strong_count(&kept.file) == 1,
            None => false,
        }
    }
}
