// The plan's file.
ghost use Rattle.std.specs.Prelude.{◌≡◌, ◌≢◌, Some, IfOk, IfSome};
ghost use Rattle.std.specs.FinMap.{get};
ghost use Rattle.world.specs.Counts.{HasCause};
ghost use Rattle.run_top.specs.Found.{IsFound, IsShort};

use std::alloc::Global;
use world::{Folder, FolderError, Reader};

/// The most bytes of a plan.
pub(crate) const MAX_PLAN: usize = 16_777_216;

/// What was found under the plan's name.
#[derive(Debug, Drop)]
pub(crate) enum Found {
    Missing,
    /// The file has more bytes than a plan may have. They weren't read.
    TooLong,
    Plan(Vec<u8>),
}

/// Reads the plan, and gives its reader back.
#[tactic(auto, unfolding(world::specs::Files::IsLookup))]
pub(crate) fn read_plan<F: Folder>(
    alloc: Global,
    folder: &mut F,
    name: &str,
) -> Result<Found, FolderError>
    ensures found { IfOk result (λ found. IfSome (F.files folder.old) (λ files. IsFound found (get files name.now))) }
    ensures short { IfOk result IsShort }
    ensures cause { HasCause FolderError.Failed (F.read_faults folder.old) (F.read_faults folder.new) result }
    ensures files { F.files folder.new ≡ F.files folder.old }
    ensures write_faults { F.write_faults folder.new ≡ F.write_faults folder.old }
    ensures lent { F.lent folder.new ≡ F.lent folder.old }
{
    let Some(mut reader) = folder.reader(alloc, name)? else {
        return Ok(Found::Missing);
    };
    let read = read_whole(alloc, &mut reader);
    folder.give_back(alloc, reader)?;
    read
}

// Reads all bytes of a file that isn't too long.
fn read_whole<R: Reader>(alloc: Global, reader: &mut R) -> Result<Found, FolderError>
    ensures found { IfOk result (λ found. IfSome (R.bytes reader.old) (λ told. IsFound found (Some told))) }
    ensures short { IfOk result IsShort }
    ensures there { result ≢ Ok Found.Missing }
    ensures cause { HasCause FolderError.Failed (R.faults reader.old) (R.faults reader.new) result }
{
    let len = reader.len()?;
    if len > MAX_PLAN as u64 {
        return Ok(Found::TooLong);
    }
    let mut bytes = vec![in alloc; 0; len as usize]?;
    reader.read_at(alloc, 0, &mut bytes)?;
    Ok(Found::Plan(bytes))
}
