// The files of a table.
ghost use Rattle.std.specs.Prelude.{◌≡◌, ◌≢◌, ◌+◌, ◌-◌, ◌^◌, ◌<◌, ◌≤◌, ◌↔◌, [], Some, Err, IsSome, IfOk, IfErr, OnOk, OnErr, length, map, fold, All};
ghost use Rattle.world.specs.Counts.{HasCause, sum_of_counts};
ghost use Rattle.world.specs.Files.{Files};
ghost use Rattle.world.specs.Reads.{joined_reads};
ghost use Rattle.table_open.specs.Answers.{FitsTable, IsBoundRefusal, IsTableError};
ghost use Rattle.table_open.specs.Files as spec;
ghost use Rattle.sub_types.specs.ResultSteps.{collect};
ghost use Rattle.table_open.specs.Words.{bindings_of};
ghost use Rattle.table_open.specs.Ready.{file_seen, IsReady};
ghost use Rattle.table_open.specs.Opened.{AreOpened};

use crate::columns::TableColumns;
use crate::error::{FileRule, TableError};
use crate::file::{OpenFile, open_one};
use crate::words::bound_file;
use std::alloc::Global;
use sub_types::{ByteList, NoMemory, Ty, Word};
use world::Folder;

/// Opens the files of a named table: each word that binds the name, in order, leads to a file, in which the
/// columns of the relation are found by their names. A name that no word binds is refused as file 0. After an
/// error all readers are given back.
#[tactic(auto, unfolding(crate::specs::Files::table_files))]
pub fn open_table<F: Folder>(
    alloc: Global,
    folder: &mut F,
    words: &[Word],
    name: &[u8],
    relation: u32,
    columns: &[ByteList],
    types: &[Ty],
) -> Result<Vec<OpenFile<F::R>>, TableError>
    requires same { length columns.now ≡ length types.now }
    requires few { length columns.now < 2 ^ 32 }
    requires few_words { length words.now ≤ 1024 }

    // What is denoted is opened, or refused, where the folder tells its files.
    ensures told { (files : Files) → F.files folder.old ≡ Some files
        → FitsTable (λ opened. map (file_seen F.R.bytes) opened.items) result (spec.table_files files words.now name.now relation columns.now types.now) }
    ensures tells { (files : Files) → F.files folder.old ≡ Some files → IfOk result (λ opened. All (λ one. IsSome (F.R.bytes one.reader)) opened.items) }

    // What is so of the files and of a refusal, whatever the folder tells.
    ensures ready { IfOk result (λ opened. All (IsReady F.R.bytes types.now) opened.items) }
    ensures numbers { IfOk result (λ opened. map (λ one. one.file) opened.items ≡ map (λ binding. binding.0) (bindings_of name.now words.now)) }
    ensures error { IfErr result (IsTableError relation (length words.now)) }
    ensures unbound { (result ≡ Err (TableError.Refused 0 (FileRule.Unbound relation))) ↔ (bindings_of name.now words.now ≡ []) }

    ensures cause { HasCause TableError.ReadFault (F.read_faults folder.old) (F.read_faults folder.new) result }
    ensures reads { OnOk result (F.reads folder.new ≡ F.reads folder.old) }
    ensures files { F.files folder.new ≡ F.files folder.old }
    ensures write_faults { F.write_faults folder.new ≡ F.write_faults folder.old }
    ensures lent { IfOk result (λ opened. F.lent folder.new ≡ F.lent folder.old + length opened.items) }
    ensures closed { OnErr result (F.lent folder.new ≡ F.lent folder.old) }
{
    let table = TableColumns {
        relation,
        names: columns,
        types,
    };
    let mut opened = Vec::new(alloc);
    if let Err(error) = open_all(alloc, folder, words, name, table, &mut opened) {
        close_table(alloc, folder, opened)?;
        return Err(error);
    }
    if opened.is_empty() {
        return Err(TableError::Refused {
            file: 0,
            rule: FileRule::Unbound { relation },
        });
    }
    Ok(opened)
}

// Opens the files of all words that bind the name, up to the first that isn't opened.
fn open_all<F: Folder>(
    alloc: Global,
    folder: &mut F,
    words: &[Word],
    name: &[u8],
    table: TableColumns<'_>,
    opened: &mut Vec<OpenFile<F::R>>,
) -> Result<(), TableError>
    requires same { length table.names.now ≡ length table.types.now }
    requires few { length table.names.now < 2 ^ 32 }
    requires few_words { length words.now ≤ 1024 }
    requires empty { opened.old.items ≡ [] }
    ensures told { (files : Files) → F.files folder.old ≡ Some files
        → FitsTable (λ _. map (file_seen F.R.bytes) opened.new.items) result
        (collect (map (spec.open_one files table.entry.relation table.entry.names.now table.entry.types.now) (bindings_of name.now words.now))) }
    ensures tells { (files : Files) → F.files folder.old ≡ Some files → OnOk result (All (λ one. IsSome (F.R.bytes one.reader)) opened.new.items) }
    ensures opened { OnOk result (AreOpened F.R.bytes table.entry.types.now (bindings_of name.now words.now) opened.new.items) }
    ensures error { IfErr result (IsBoundRefusal table.entry.relation (length words.now)) }
    ensures bound { OnErr result (bindings_of name.now words.now ≢ []) }
    ensures cause { HasCause TableError.ReadFault (F.read_faults folder.old) (F.read_faults folder.new) result }
    ensures reads { OnOk result (F.reads folder.new ≡ F.reads folder.old) }
    ensures files { F.files folder.new ≡ F.files folder.old }
    ensures write_faults { F.write_faults folder.new ≡ F.write_faults folder.old }
    ensures lent { F.lent folder.new ≡ F.lent folder.old + length opened.new.items }
{
    for (i, word) in words.iter().enumerate() {
        let Some(file) = bound_file(word.text(), name) else {
            continue;
        };
        // Room comes first, so that no reader is lost for want of it.
        opened.reserve(1)?;
        let one = open_one(alloc, folder, i as u32 + 1, file, table)?;
        opened.push_reserved(one);
    }
    Ok(())
}

/// Gives the readers of all files back, also where no memory was found for the reads of one of them.
pub fn close_table<F: Folder>(
    alloc: Global,
    folder: &mut F,
    opened: Vec<OpenFile<F::R>>,
) -> Result<(), NoMemory>
    ensures faults { F.read_faults folder.new ≡ fold sum_of_counts (F.read_faults folder.old) (map (λ one. F.R.faults one.reader) opened.items) }
    ensures never_falls { F.read_faults folder.old ≤ F.read_faults folder.new }
    ensures reads { OnOk result (F.reads folder.new ≡ fold joined_reads (F.reads folder.old) (map (λ one. F.R.reads one.reader) opened.items)) }
    ensures files { F.files folder.new ≡ F.files folder.old }
    ensures write_faults { F.write_faults folder.new ≡ F.write_faults folder.old }
    ensures lent { F.lent folder.new ≡ F.lent folder.old - length opened.items }
{
    let mut closed = Ok(());
    for one in opened {
        let OpenFile { reader, .. } = one;
        if let Err(error) = folder.give_back(alloc, reader) {
            closed = Err(error);
        }
    }
    closed
}
