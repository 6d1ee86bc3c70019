// The bytes at a place of a file.
ghost use Rattle.std.specs.Prelude.{◌≡◌, ◌+◌, ◌≤◌, length, take, drop, IfOk, vec_len};
ghost use Rattle.world.specs.Counts.{HasCause};
ghost use Rattle.world.specs.Reads.{reads_after};
ghost use Rattle.arrow_read.specs.Told.{IfTold};

use std::alloc::Global;
use world::{FolderError, Reader};

/// So many bytes from a place on.
#[tactic(auto, unfolding(world::specs::Reads::reads_after))]
pub(crate) fn read_range<R: Reader>(
    alloc: Global,
    reader: &mut R,
    at: u64,
    len: u64,
) -> Result<Vec<u8>, FolderError>
    requires { IfTold (R.bytes reader.old) (λ told. at + len ≤ length told) }
    ensures read { IfOk result (λ bytes. IfTold (R.bytes reader.old) (λ told. bytes.items ≡ take len (drop at told))) }
    ensures len { IfOk result (λ bytes. vec_len bytes ≡ len) }
    ensures reads { R.reads reader.new ≡ reads_after result (R.reads reader.old) at len }
    ensures cause { HasCause FolderError.Failed (R.faults reader.old) (R.faults reader.new) result }
    ensures bytes { R.bytes reader.new ≡ R.bytes reader.old }
{
    let mut bytes = vec![in alloc; 0; len as usize]?;
    reader.read_at(alloc, at, &mut bytes)?;
    Ok(bytes)
}
