// The files of a folder in memory, by name.
ghost use Rattle.std.specs.Prelude.{◌≡◌, ◌++◌, [], Option, Some, IsSome, OnOk, OnErr, unwrap_or};
ghost use Rattle.std.specs.Option.{option_copied, option_map};
ghost use Rattle.std.specs.FinMap as map;

use std::alloc::Global;
use std::collections::BTreeMap;
use std::marker::Model;
use sub_types::NoMemory;

/// Files by name, seen as a finite map from the bytes of names to bytes.
#[derive(Drop)]
pub struct FileTable {
    alloc: Global,
    files: BTreeMap<String, Vec<u8>>,
}

impl Model for FileTable {
    ghost use Rattle.std.specs.FinMap as map;
    ghost use Rattle.std.specs.Coded.{coded_ℕ, coded_list};
    ghost use Rattle.world.specs.Files.{Files};
    ghost use Rattle.world.specs.Table.{files_of};

    ghost Value = { Files };

    ghost coded = { map.code (coded_list coded_ℕ) (coded_list coded_ℕ) };

    ghost view = { λ table. files_of table.files.entries };
}

impl FileTable {
    /// No files.
    pub fn new(alloc: Global) -> FileTable
        ensures { result ≡ map.empty }
    {
        FileTable {
            alloc,
            files: BTreeMap::new(alloc),
        }
    }

    /// The named file, or `None` where it isn't there.
    pub fn file(&self, name: &str) -> Option<&[u8]>
        ensures { option_copied result ≡ map.get self.now name.now }
    {
        match self.files.get(name) {
            Some(bytes) => Some(bytes.as_slice()),
            None => None,
        }
    }

    /// Sets a file.
    pub fn put(&mut self, name: &str, bytes: Vec<u8>) -> Result<(), NoMemory>
        ensures ok { OnOk result (self.new ≡ map.insert self.old name.now bytes.items) }
        ensures err { OnErr result (self.new ≡ self.old) }
    {
        let name = String::from_str(self.alloc, name)?;
        self.files.insert(name, bytes)?;
        Ok(())
    }

    /// Adds the piece at the end of a file that is there.
    pub fn append(&mut self, name: &str, piece: &[u8]) -> Result<(), NoMemory>
        requires { IsSome (map.get self.old name.now) }
        ensures ok { OnOk result (self.new ≡ map.insert self.old name.now (unwrap_or (map.get self.old name.now) [] ++ piece.now)) }
        ensures err { OnErr result (self.new ≡ self.old) }
    {
        let Some(bytes) = self.files.get_mut(name) else {
            unreachable!();
        };
        bytes.extend_from_slice(piece)?;
        Ok(())
    }
}
