// The schema: a field for each column (Schema.fbs, `Schema` and `Field`).
ghost use Rattle.std.specs.Prelude.{◌≡◌, IfOk, length};
ghost use Rattle.std.specs.List.{All};
ghost use Rattle.fb_bytes.specs.Object.{laid, laid_each, IsSound, IsSoundTable};
ghost use Rattle.arrow_meta.specs.Messages.{field_laid, fields_laid, schema_laid};

use crate::write::types::{type_object, type_tag};
use fb_bytes::{FbField, FbObject};
use std::alloc::Global;
use sub_types::{ByteList, NoMemory, Ty};

// A little-endian schema.
pub(crate) fn schema_object(
    alloc: Global,
    names: &[ByteList],
    types: &[Ty],
) -> Result<FbObject, NoMemory>
    requires { length names.now ≡ length types.now }
    ensures laid { IfOk result (λ object. laid object ≡ schema_laid names.now types.now) }
    ensures sound { IfOk result (λ object. IsSound object) }
{
    let columns = FbObject::of_tables(field_objects(alloc, names, types)?);
    let fields = vec![in alloc;
        FbField::Scalar {
            slot: 0,
            width: 2,
            value: 0
        },
        FbField::Child {
            slot: 1,
            object: columns
        },
    ]?;
    Ok(FbObject::of_fields(fields))
}

fn field_objects(alloc: Global, names: &[ByteList], types: &[Ty]) -> Result<Vec<FbObject>, NoMemory>
    requires { length names.now ≡ length types.now }
    ensures laid { IfOk result (λ objects. laid_each objects.items ≡ fields_laid names.now types.now) }
    ensures sound { IfOk result (λ objects. All IsSoundTable objects.items) }
{
    let mut objects = Vec::new(alloc);
    for (i, name) in names.iter().enumerate() {
        let object = field_object(alloc, name, types[i])?;
        objects.push(object)?;
    }
    Ok(objects)
}

// A field without children.
fn field_object(alloc: Global, name: &ByteList, ty: Ty) -> Result<FbObject, NoMemory>
    ensures laid { IfOk result (λ object. laid object ≡ field_laid name.now ty) }
    ensures sound { IfOk result (λ object. IsSoundTable object) }
{
    let text = FbObject::of_text(name.copy()?);
    let kind = type_object(alloc, ty.kind)?;
    let children = FbObject::of_tables(Vec::new(alloc));
    let fields = vec![in alloc;
        FbField::Child {
            slot: 0,
            object: text
        },
        FbField::Scalar {
            slot: 1,
            width: 1,
            value: u64::from(ty.nullable)
        },
        FbField::Scalar {
            slot: 2,
            width: 1,
            value: u64::from(type_tag(ty.kind))
        },
        FbField::Child {
            slot: 3,
            object: kind
        },
        FbField::Child {
            slot: 5,
            object: children
        },
    ]?;
    Ok(FbObject::of_fields(fields))
}
