// Where the blocks of a file stand.
ghost use Rattle.std.specs.Prelude.{◌≡◌, IfSome, OnSome};
ghost use Rattle.std.specs.Option.{option_map};
ghost use Rattle.arrow_meta.specs.Places.{place_in};
ghost use Rattle.arrow_read.specs.Sound.{IsPlaced};
ghost use Rattle.arrow_read.specs.Extents.{extent_seen, IsInside};

use crate::extent::Extent;
use arrow_meta::Block;

/// Where a block stands, if it lies before the footer.
#[tactic(auto, unfolding(arrow_meta::specs::Places::place_in))]
pub(crate) fn find_extent(footer: u64, block: &Block) -> Option<Extent>
    ensures place { option_map extent_seen result ≡ place_in footer block.now }
    ensures inside { IfSome result (IsInside footer) }
    ensures placed { OnSome result (IsPlaced block.now) }
{
    if block.offset < 0 || block.meta_len < 8 || block.body_len < 0 {
        return None;
    }
    let offset = block.offset as u64;
    let meta_len = block.meta_len as u64;
    let body_len = block.body_len as u64;
    if u128::from(offset) + u128::from(meta_len) + u128::from(body_len) > u128::from(footer) {
        return None;
    }
    Some(Extent {
        offset,
        meta_len,
        body_len,
    })
}
