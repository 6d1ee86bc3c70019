// The row of a call.
ghost use Rattle.std.specs.Prelude.{◌≡◌, IfSome};
ghost use Rattle.std.specs.Option.{option_map};
ghost use Rattle.func_table.specs.Find as spec;
ghost use Rattle.func_table.specs.Seen.{seen, entry_seen};

use crate::line::Line;
use crate::row::{Class, Row};
use crate::table::lines;
use sub_types::Kind;

/// The row of a file's function of this name and class that takes arguments of these kinds. No other row takes them
/// (`one_row_fits`).
pub fn find(file: &str, name: &str, kinds: &[Kind], class: Class) -> Option<Row>
    ensures row { option_map seen result ≡ spec.row_for file.now name.now kinds.now class }
    ensures of_table { IfSome result (λ row. spec.IsRow (seen row)) }
{
    find_bytes(file.as_bytes(), name.as_bytes(), kinds, class)
}

/// The same of a file and a name in bytes.
pub fn find_bytes(file: &[u8], name: &[u8], kinds: &[Kind], class: Class) -> Option<Row>
    ensures row { option_map seen result ≡ spec.row_for file.now name.now kinds.now class }
    ensures of_table { IfSome result (λ row. spec.IsRow (seen row)) }
{
    let line = line_for(file, name, kinds, class)?;
    Some(line.row)
}

fn line_for(file: &[u8], name: &[u8], kinds: &[Kind], class: Class) -> Option<&'static Line>
    ensures { option_map (λ line. entry_seen line.now) result ≡ spec.entry_for file.now name.now kinds.now class }
{
    lines()
        .iter()
        .find(|line| line.fits(file, name, kinds, class))
}

/// Whether a file has a function of this name and class, whatever its arguments are.
pub fn has_name(file: &str, name: &str, class: Class) -> bool
    ensures { result ≡ spec.is_known file.now name.now class }
{
    has_name_bytes(file.as_bytes(), name.as_bytes(), class)
}

/// The same of a file and a name in bytes.
pub fn has_name_bytes(file: &[u8], name: &[u8], class: Class) -> bool
    ensures { result ≡ spec.is_known file.now name.now class }
{
    lines().iter().any(|line| line.is_named(file, name, class))
}
