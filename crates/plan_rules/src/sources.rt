// What a read relation reads (Substrait `ReadRel.LocalFiles` and `ReadRel.NamedTable`).
ghost use Rattle.std.specs.Prelude.{◌≡◌, IfOk, map};
ghost use Rattle.std.specs.List.{join_with_byte};
ghost use Rattle.sub_types.specs.ResultSteps.{collect};
ghost use Rattle.plan_verdict.specs.Checking.{Agrees};
ghost use Rattle.plan_verdict.specs.Reads as spec;

use plan_leaves::{FileItem, ItemPath, Items, LocalFiles, NamedTable};
use plan_verdict::{CheckError, Rule};
use std::alloc::Global;
use sub_types::{ByteList, NoMemory};

/// The paths of local files, which are one or more, each in the Arrow format.
pub fn paths_in(
    alloc: Global,
    relation: u32,
    files: &LocalFiles,
) -> Result<Items<ByteList>, CheckError>
    ensures { Agrees result relation (spec.paths_in files.now) }
{
    if files.items.is_empty() {
        return Err(CheckError::Refused {
            relation,
            rule: Rule::MissingField,
        });
    }
    each_path(alloc, relation, files.items.as_slice())
}

fn each_path(
    alloc: Global,
    relation: u32,
    items: &[FileItem],
) -> Result<Items<ByteList>, CheckError>
    ensures { Agrees result relation (collect (map spec.item_in items.now)) }
{
    let mut paths = Items::new(alloc);
    for item in items {
        paths.push(path_in(relation, item)?)?;
    }
    Ok(paths)
}

fn path_in(relation: u32, item: &FileItem) -> Result<ByteList, CheckError>
    ensures { Agrees result relation (spec.item_in item.now) }
{
    if !item.arrow {
        return Err(CheckError::Refused {
            relation,
            rule: Rule::UnsupportedForm,
        });
    }
    match &item.path {
        ItemPath::UriPath(path) | ItemPath::UriFile(path) => Ok(path.copy()?),
        ItemPath::Missing => Err(CheckError::Refused {
            relation,
            rule: Rule::UnsupportedForm,
        }),
    }
}

/// The name of a named table: its names, which are one or more, with a dot between each two.
pub fn table_name_in(
    alloc: Global,
    relation: u32,
    table: &NamedTable,
) -> Result<ByteList, CheckError>
    ensures { Agrees result relation (spec.table_name_in table.now) }
{
    if table.names.is_empty() {
        return Err(CheckError::Refused {
            relation,
            rule: Rule::MissingField,
        });
    }
    Ok(joined(alloc, table.names.as_slice())?)
}

// The names with a dot between each two.
fn joined(alloc: Global, names: &[ByteList]) -> Result<ByteList, NoMemory>
    ensures { IfOk result (λ name. name ≡ join_with_byte 46 names.now) }
{
    let Some((first, rest)) = names.split_first() else {
        return Ok(ByteList::from_vec(Vec::new(alloc)));
    };
    let mut bytes = first.copy()?.into_vec();
    for name in rest {
        bytes.push(b'.')?;
        bytes.extend_from_slice(name.bytes())?;
    }
    Ok(ByteList::from_vec(bytes))
}
