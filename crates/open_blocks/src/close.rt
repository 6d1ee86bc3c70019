// The readers of files, given back.
ghost use Rattle.std.specs.Prelude.{◌≡◌, ◌-◌, ◌<◌, ◌≤◌, length, sum_by};
ghost use Rattle.world.specs.Counts.{Rose};
ghost use Rattle.open_blocks.specs.Files.{count_readers, faults_of};

use crate::files::ReadFiles;
use std::alloc::Global;
use sub_types::NoMemory;
use world::Folder;

/// Gives the readers of the files of all read relations back, also where no memory was found for the reads of one of them.
pub fn close_files<F: Folder>(
    alloc: Global,
    folder: &mut F,
    all: Vec<ReadFiles<F::R>>,
) -> Result<(), NoMemory>
    ensures never_falls { F.read_faults folder.old ≤ F.read_faults folder.new }
    ensures faults { 0 < faults_of F.R.faults all.items → Rose (F.read_faults folder.old) (F.read_faults folder.new) }
    ensures files { F.files folder.new ≡ F.files folder.old }
    ensures write_faults { F.write_faults folder.new ≡ F.write_faults folder.old }
    ensures lent { F.lent folder.new ≡ F.lent folder.old - count_readers all.items }
{
    let mut closed = Ok(());
    for one in all {
        let ReadFiles { readers, .. } = one;
        if let Err(error) = close_readers(alloc, folder, readers) {
            closed = Err(error);
        }
    }
    closed
}

/// The same of some readers.
pub(crate) fn close_readers<F: Folder>(
    alloc: Global,
    folder: &mut F,
    readers: Vec<F::R>,
) -> Result<(), NoMemory>
    ensures never_falls { F.read_faults folder.old ≤ F.read_faults folder.new }
    ensures faults { 0 < sum_by F.R.faults readers.items → Rose (F.read_faults folder.old) (F.read_faults folder.new) }
    ensures files { F.files folder.new ≡ F.files folder.old }
    ensures write_faults { F.write_faults folder.new ≡ F.write_faults folder.old }
    ensures lent { F.lent folder.new ≡ F.lent folder.old - length readers.items }
{
    let mut closed = Ok(());
    for reader in readers {
        if let Err(error) = folder.give_back(alloc, reader) {
            closed = Err(error);
        }
    }
    closed
}
