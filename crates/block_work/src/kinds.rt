// Whether columns have the kinds of types.
ghost use Rattle.std.specs.Prelude.{◌≡◌, ◌≢◌, true, false, map};
ghost use Rattle.batch.specs.Column.{column_type};
ghost use Rattle.table_rows.specs.Read.{kinds_of};

use batch::Column;
use func_table::is_equal;
use sub_types::Ty;

/// Whether the columns have the kinds of these types, in order.
pub(crate) fn have_kinds(columns: &[Column], types: &[Ty]) -> bool
    ensures same { result ≡ true → kinds_of (map column_type columns.now) ≡ kinds_of types.now }
    ensures differ { result ≡ false → kinds_of (map column_type columns.now) ≢ kinds_of types.now }
{
    if columns.len() != types.len() {
        return false;
    }
    for index in 0..types.len() {
        if !is_equal(columns[index].ty.kind, types[index].kind) {
            return false;
        }
    }
    true
}
