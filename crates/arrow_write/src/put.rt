// A file that is written piece by piece.
ghost use Rattle.std.specs.Prelude.{◌≡◌, [], OnOk, OnErr};
ghost use Rattle.world.specs.Counts.{HasCause};
ghost use Rattle.world.specs.Files.{written, appended, Has};
ghost use Rattle.arrow_write.specs.Pieces.{IsPartAppended, IsPartCreated};

use crate::WriteError;
use std::alloc::Global;
use world::{Folder, FolderError};

// The named file, empty.
pub(crate) fn create<F: Folder>(alloc: Global, folder: &mut F, name: &str) -> Result<(), WriteError>
    ensures ok { OnOk result (F.files folder.new ≡ written (F.files folder.old) name.now []) }
    ensures err { OnErr result (IsPartCreated (F.files folder.old) (F.files folder.new) name.now) }
    ensures cause { HasCause WriteError.WriteFault (F.write_faults folder.old) (F.write_faults folder.new) result }
    ensures reads { F.reads folder.new ≡ F.reads folder.old }
    ensures read_faults { F.read_faults folder.new ≡ F.read_faults folder.old }
    ensures lent { F.lent folder.new ≡ F.lent folder.old }
{
    match folder.create(alloc, name) {
        Ok(()) => Ok(()),
        Err(FolderError::Failed) => Err(WriteError::WriteFault),
        Err(FolderError::NoMemory) => Err(WriteError::NoMemory),
    }
}

// A piece at the end of the named file.
pub(crate) fn append<F: Folder>(
    alloc: Global,
    folder: &mut F,
    name: &str,
    piece: &[u8],
) -> Result<(), WriteError>
    requires { Has (F.files folder.old) name.now }
    ensures ok { OnOk result (F.files folder.new ≡ appended (F.files folder.old) name.now piece.now) }
    ensures err { OnErr result (IsPartAppended (F.files folder.old) (F.files folder.new) name.now piece.now) }
    ensures cause { HasCause WriteError.WriteFault (F.write_faults folder.old) (F.write_faults folder.new) result }
    ensures reads { F.reads folder.new ≡ F.reads folder.old }
    ensures read_faults { F.read_faults folder.new ≡ F.read_faults folder.old }
    ensures lent { F.lent folder.new ≡ F.lent folder.old }
{
    match folder.append(alloc, name, piece) {
        Ok(()) => Ok(()),
        Err(FolderError::Failed) => Err(WriteError::WriteFault),
        Err(FolderError::NoMemory) => Err(WriteError::NoMemory),
    }
}
