// Objects whose buffers were worked out by hand.
ghost use Rattle.std.specs.Prelude.{◌≡◌, IfOk};
ghost use Rattle.fb_bytes.specs.Layout.{text_laid};
ghost use Rattle.fb_bytes.specs.Object.{laid, IsSound, IsSoundTable};
ghost use Rattle.fb_bytes_tests.specs.Worked as worked;

use fb_bytes::{FbField, FbObject};
use std::alloc::Global;
use sub_types::{ByteList, NoMemory};

fn text(alloc: Global, bytes: &[u8]) -> Result<FbObject, NoMemory>
    ensures laid { IfOk result (λ o. laid o ≡ text_laid bytes.now) }
    ensures sound { IfOk result IsSound }
{
    Ok(FbObject::of_text(ByteList::of(alloc, bytes)?))
}

// Numbers of all widths. Slot 4 is left out.
#[tactic(auto, unfolding(crate::specs::Worked::widths))]
pub(super) fn widths(alloc: Global) -> Result<FbObject, NoMemory>
    ensures laid { IfOk result (λ o. laid o ≡ worked.widths) }
    ensures sound { IfOk result IsSoundTable }
{
    let a = FbField::Scalar {
        slot: 0,
        width: 1,
        value: 0x11,
    };
    let b = FbField::Scalar {
        slot: 1,
        width: 8,
        value: 0x2222_2222_2222_2222,
    };
    let c = FbField::Scalar {
        slot: 2,
        width: 2,
        value: 0x3333,
    };
    let d = FbField::Scalar {
        slot: 3,
        width: 4,
        value: 0x4444_4444,
    };
    let e = FbField::Scalar {
        slot: 5,
        width: 1,
        value: 0x55,
    };
    let f = FbField::Scalar {
        slot: 6,
        width: 8,
        value: 0x66,
    };
    Ok(FbObject::of_fields(vec![in alloc; a, b, c, d, e, f]?))
}

pub(super) fn one_text(alloc: Global, bytes: &[u8]) -> Result<FbObject, NoMemory>
    ensures laid { IfOk result (λ o. laid o ≡ worked.one_text bytes.now) }
    ensures sound { IfOk result IsSoundTable }
{
    let only = FbField::Child {
        slot: 0,
        object: text(alloc, bytes)?,
    };
    Ok(FbObject::of_fields(vec![in alloc; only]?))
}
