// One file of a table.
ghost use Rattle.std.specs.Prelude.{◌≡◌, ◌+◌, ◌^◌, ◌<◌, Some, Ok, IsSome, IfOk, IfErr, OnOk, length, if◌then◌else◌, is_ok};
ghost use Rattle.world.specs.Counts.{HasCause};
ghost use Rattle.world.specs.Files.{Files};
ghost use Rattle.arrow_meta.specs.Head.{head_of};
ghost use Rattle.arrow_read.specs.Told.{IfTold};
ghost use Rattle.arrow_read.specs.Seen.{head_seen};
ghost use Rattle.table_open.specs.Answers.{FitsFile, FitsTable, IsFileError, IsBoundError};
ghost use Rattle.table_open.specs.Columns.{match_columns};
ghost use Rattle.table_open.specs.Files as spec;
ghost use Rattle.table_open.specs.Ready.{file_seen, found_seen, IsReady};

use crate::columns::{TableColumns, places_of};
use crate::error::{FileError, FileRule, TableError};
use arrow_read::{FileHead, open_file};
use std::alloc::Global;
use world::{Folder, Reader};

/// An open file of a table.
#[derive(Drop)]
pub struct OpenFile<R> {
    /// The number of the word that binds the table's name to the file, from 1 on.
    pub file: u32,
    pub head: FileHead,
    pub reader: R,
    /// For each column of the table its place among the file's columns.
    pub wanted: Vec<u32>,
}

/// Opens the file of a binding. Its reader is given back where the file is refused.
#[tactic(auto, unfolding(world::specs::Files::IsLookup, crate::specs::Files::open_one))]
pub(crate) fn open_one<F: Folder>(
    alloc: Global,
    folder: &mut F,
    number: u32,
    name: &str,
    table: TableColumns<'_>,
) -> Result<OpenFile<F::R>, TableError>
    requires same { length table.names.now ≡ length table.types.now }
    requires few { length table.names.now < 2 ^ 32 }
    ensures told { (files : Files) → F.files folder.old ≡ Some files
        → FitsTable (file_seen F.R.bytes) result (spec.open_one files table.entry.relation table.entry.names.now table.entry.types.now (number, name.now)) }
    ensures tells { (files : Files) → F.files folder.old ≡ Some files → IfOk result (λ one. IsSome (F.R.bytes one.reader)) }
    ensures ready { IfOk result (IsReady F.R.bytes table.entry.types.now) }
    ensures number { IfOk result (λ one. one.file ≡ number) }
    ensures error { IfErr result (IsBoundError table.entry.relation number) }
    ensures cause { HasCause TableError.ReadFault (F.read_faults folder.old) (F.read_faults folder.new) result }
    ensures reads { OnOk result (F.reads folder.new ≡ F.reads folder.old) }
    ensures files { F.files folder.new ≡ F.files folder.old }
    ensures write_faults { F.write_faults folder.new ≡ F.write_faults folder.old }
    ensures lent { F.lent folder.new ≡ (if is_ok result then F.lent folder.old + 1 else F.lent folder.old) }
{
    let Some(mut reader) = folder.reader(alloc, name)? else {
        return Err(TableError::Refused {
            file: number,
            rule: FileRule::Missing,
        });
    };
    match read_head(alloc, &mut reader, table) {
        Ok((head, wanted)) => Ok(OpenFile {
            file: number,
            head,
            reader,
            wanted,
        }),
        Err(error) => {
            folder.give_back(alloc, reader)?;
            Err(error.of_file(number))
        }
    }
}

// The head of a file and the places of the table's columns in it.
#[tactic(auto, unfolding(crate::specs::Files::wanted_in))]
fn read_head<R: Reader>(
    alloc: Global,
    reader: &mut R,
    table: TableColumns<'_>,
) -> Result<(FileHead, Vec<u32>), FileError>
    requires same { length table.names.now ≡ length table.types.now }
    requires few { length table.names.now < 2 ^ 32 }
    ensures told { IfTold (R.bytes reader.old) (λ bytes.
        FitsFile found_seen result (spec.wanted_in table.entry.relation table.entry.names.now table.entry.types.now bytes)) }
    ensures head { IfOk result (λ found. IfTold (R.bytes reader.old) (λ bytes. head_of bytes ≡ Ok (head_seen found.0))) }
    ensures wanted { IfOk result (λ found. match_columns table.entry.relation found.0.schema.columns table.entry.names.now table.entry.types.now ≡ Ok found.1.items) }
    ensures error { IfErr result (IsFileError table.entry.relation) }
    ensures cause { HasCause FileError.ReadFault (R.faults reader.old) (R.faults reader.new) result }
    ensures bytes { R.bytes reader.new ≡ R.bytes reader.old }
{
    let head = open_file(alloc, reader)?;
    let wanted = places_of(alloc, head.schema.columns.fields(), table)?;
    Ok((head, wanted))
}
