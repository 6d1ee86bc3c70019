// A column or a part of one, lent.
ghost use Rattle.std.specs.Prelude.{◌≡◌, All};
ghost use Rattle.sub_types.specs.Kind.{IsKind};
ghost use Rattle.sub_types.specs.Value.{InKind};
ghost use Rattle.batch.specs.ColumnValues.{kind_storage};
ghost use Rattle.batch.specs.KindLaws.{IsKind-prop, InKinds-prop};
ghost use Rattle.batch.specs.Lent.{lent, lent_storage};

use crate::DataView;
use sub_types::Ty;

/// A column, or a part of one, lent without a copy: its type, and values of that kind.
#[derive(Drop)]
pub struct ColumnView<'a> {
    pub ty: Ty,
    pub values: DataView<'a>,
    pub ghost valid_kind: { IsKind ty.kind } by { IsKind-prop ty.kind },
    pub ghost stored: { lent_storage values ≡ kind_storage ty.kind },
    pub ghost in_kind: { All (InKind ty.kind) (lent values) } by { InKinds-prop ty.kind (lent values) },
}
