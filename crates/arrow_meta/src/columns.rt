// The columns of a file.
ghost use Rattle.std.specs.Prelude.{◌≡◌};

use crate::FieldMeta;
use std::marker::Model;

/// The columns of a file, which contracts see as the list.
#[derive(Debug, Drop)]
pub struct Columns {
    items: Vec<FieldMeta>,
}

impl Model for Columns {
    ghost use Rattle.std.specs.Prelude.{List};
    ghost use Rattle.arrow_meta.specs.declared.field.FieldMeta.{FieldMeta};

    ghost Value = { List FieldMeta };

    ghost view = { λ columns. columns.items.items };
}

impl Columns {
    /// The columns of the vector. It takes no memory.
    pub fn from_vec(items: Vec<FieldMeta>) -> Columns
        ensures { result ≡ items.items }
    {
        Columns { items }
    }

    pub fn fields(&self) -> &[FieldMeta]
        ensures { result.now ≡ self.now }
    {
        &self.items
    }
}

/// The schema of a file (Schema.fbs, `Schema`).
#[derive(Debug, Drop)]
pub struct Schema {
    pub columns: Columns,
}
