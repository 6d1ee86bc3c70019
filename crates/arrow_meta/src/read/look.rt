// Numbers and tables that are looked at in metadata.
ghost use Rattle.std.specs.Prelude.{◌≡◌};
ghost use Rattle.fb_bytes.specs.Object.{IsWidth};
ghost use Rattle.arrow_meta.specs.Looked.{number_in, table_in};

use crate::MetaError;
use fb_bytes::Table;

// The number in the low `width` bytes of a slot, or its default where it is absent.
#[tactic(auto, unfolding(crate::specs::Looked::number_in))]
pub(crate) fn number(
    table: &Table<'_>,
    slot: u16,
    width: u8,
    default: u64,
) -> Result<u64, MetaError>
    requires { IsWidth width }
    ensures { result ≡ number_in table.now slot width default }
{
    Ok(table.scalar(slot, width)?.unwrap_or(default))
}

// The table in a slot, which must be there.
#[tactic(auto, unfolding(crate::specs::Looked::table_in))]
pub(crate) fn table<'a>(table: &Table<'a>, slot: u16) -> Result<Table<'a>, MetaError>
    ensures { result ≡ table_in table.now slot }
{
    match table.table(slot)? {
        Some(found) => Ok(found),
        None => Err(MetaError::Bad),
    }
}
