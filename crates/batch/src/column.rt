// A column of a batch.
ghost use Rattle.std.specs.Prelude.{◌≡◌, All};
ghost use Rattle.sub_types.specs.Kind.{IsKind};
ghost use Rattle.sub_types.specs.Value.{InKind};
ghost use Rattle.batch.specs.ColumnValues.{values_of, storage_of, kind_storage};
ghost use Rattle.batch.specs.KindLaws.{IsKind-prop, InKinds-prop};

use crate::ColumnData;
use sub_types::Ty;

/// A column: its type, and values of that kind. Whether nulls may stand in it is not kept here.
#[derive(Debug, Drop)]
pub struct Column {
    pub ty: Ty,
    pub values: ColumnData,
    pub ghost valid_kind: { IsKind ty.kind } by { IsKind-prop ty.kind },
    pub ghost stored: { storage_of values ≡ kind_storage ty.kind },
    pub ghost in_kind: { All (InKind ty.kind) (values_of values) } by { InKinds-prop ty.kind (values_of values) },
}
