// The file of batches.
ghost use Rattle.std.specs.Prelude.{◌≡◌, ◌≤◌, ◌^◌, OnOk, OnErr, length};
ghost use Rattle.std.specs.List.{All, flat_map, sum_by};
ghost use Rattle.world.specs.Counts.{HasCause};
ghost use Rattle.world.specs.Files.{written, IsPartWritten};
ghost use Rattle.batch.specs.BatchRows.{types_of, rows_of};
ghost use Rattle.arrow_meta.specs.File.{file_of};

use crate::WriteError;
use crate::batches::append_batches;
use crate::frame::{head_bytes, tail_bytes};
use crate::put::{append, create};
use batch::Batch;
use std::alloc::Global;
use sub_types::{ByteList, Ty};
use world::Folder;

/// Writes the Arrow file of these names, types and rows under the name, in the place of what is there (Arrow columnar
/// format, "IPC File Format"). The rows are those of the batches, one behind the other, and the file has them in batches
/// of 1,024, the last shorter, wherever the input's batches end; where there are no rows, it has one batch of length 0.
/// Offsets have four bytes, which hold them whole where the rows fit their types: a text or binary value has then at
/// most 1,048,576 bytes.
/// After an error the file is as before or a prefix of that file: `WriteFault` where a write of the folder failed, and
/// `NoMemory` where no memory was found.
pub fn write_file<F: Folder>(
    alloc: Global,
    folder: &mut F,
    name: &str,
    names: &[ByteList],
    types: &[Ty],
    batches: &[Batch],
) -> Result<(), WriteError>
    requires same_count { length names.now ≡ length types.now }
    requires few { length names.now ≤ 1024 }
    requires short { sum_by length names.now ≤ 16777216 }
    requires alike { All (λ batch. types_of batch ≡ types.now) batches.now }
    requires few_rows { sum_by (λ batch. batch.rows) batches.now ≤ 2 ^ 36 }
    ensures ok { OnOk result (F.files folder.new ≡ written (F.files folder.old) name.now (file_of names.now types.now (flat_map rows_of batches.now))) }
    ensures err { OnErr result (IsPartWritten (F.files folder.old) (F.files folder.new) name.now (file_of names.now types.now (flat_map rows_of batches.now))) }
    ensures cause { HasCause WriteError.WriteFault (F.write_faults folder.old) (F.write_faults folder.new) result }
    ensures reads { F.reads folder.new ≡ F.reads folder.old }
    ensures read_faults { F.read_faults folder.new ≡ F.read_faults folder.old }
    ensures lent { F.lent folder.new ≡ F.lent folder.old }
{
    let head = head_bytes(alloc, names, types)?;
    create(alloc, folder, name)?;
    append(alloc, folder, name, &head)?;
    let blocks = append_batches(alloc, folder, name, types, batches, head.len() as u64)?;
    let tail = tail_bytes(alloc, names, types, &blocks)?;
    append(alloc, folder, name, &tail)
}
