// Streams one after the other.
ghost use Rattle.std.specs.Prelude.{◌≡◌, map, IfOk};
ghost use Rattle.row_steps.specs.Seen.{seen};
ghost use Rattle.sub_types.specs.Stream as spec;

use crate::stream::Stream;
use plan_leaves::Items;
use std::alloc::Global;
use sub_types::{Fault, NoMemory};

/// A stream and then the rest, unless the stream ends in a fault.
pub fn followed_by<R: Drop>(first: Stream<R>, rest: Stream<R>) -> Result<Stream<R>, NoMemory>
    ensures { IfOk result (λ s. seen s ≡ spec.followed_by (seen first) (seen rest)) }
{
    if first.end.is_some() {
        return Ok(first);
    }
    let mut rows = first.rows.into_vec();
    let mut more = rest.rows.into_vec();
    rows.append(&mut more)?;
    Ok(Stream {
        rows: Items::from_vec(rows),
        end: rest.end,
    })
}

/// All streams one after the other, up to the first fault.
pub fn glued<R: Drop>(alloc: Global, streams: Items<Stream<R>>) -> Result<Stream<R>, NoMemory>
    ensures { IfOk result (λ s. seen s ≡ spec.glue (map seen streams)) }
{
    let mut all = ended(alloc, None);
    for stream in streams.into_vec() {
        all = followed_by(all, stream)?;
    }
    Ok(all)
}

/// No rows and this end.
pub fn ended<R>(alloc: Global, end: Option<Fault>) -> Stream<R>
    ensures { seen result ≡ spec.ended end }
{
    Stream {
        rows: Items::new(alloc),
        end,
    }
}
