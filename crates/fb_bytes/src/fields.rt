// What the fields of a table take: slots, widths and places.
ghost use Rattle.std.specs.Prelude.{◌≡◌, ◌+◌, ◌*◌, ◌≤◌, ◌<◌, ◌^◌, length};
ghost use Rattle.fb_bytes.specs.Layout.{part_slot, part_width, slot_count, fields_width, entry, by_width, table_place, round_up};
ghost use Rattle.fb_bytes.specs.Object.{part_of, parts_of};
ghost use Rattle.fb_bytes.specs.Writing.{blanks};

use crate::FbField;

// The widths in the order in which the fields of a table stand.
pub(crate) const WIDTHS: [usize; 4] = [8, 4, 2, 1];

impl FbField {
    pub(crate) fn slot(&self) -> usize
        ensures value { result ≡ part_slot (part_of self.now) }
        ensures fits { result < 2 ^ 16 }
    {
        match self {
            FbField::Scalar { slot, .. } | FbField::Child { slot, .. } => *slot as usize,
        }
    }

    pub(crate) fn width(&self) -> usize
        ensures value { result ≡ part_width (part_of self.now) }
        ensures fits { result < 2 ^ 8 }
    {
        match self {
            FbField::Scalar { width, .. } => *width as usize,
            FbField::Child { .. } => 4,
        }
    }
}

// One more than the last slot.
pub(crate) fn slot_count(fields: &[FbField]) -> usize
    ensures { result ≡ slot_count (parts_of fields.now) }
{
    let mut count = 0;
    for field in fields {
        count = count.max(field.slot() + 1);
    }
    count
}

// The bytes that the fields take.
pub(crate) fn fields_width(fields: &[FbField]) -> usize
    requires { length fields.now ≤ 64 }
    ensures value { result ≡ fields_width (parts_of fields.now) }
    ensures bound { result ≤ 255 * 64 }
{
    let mut all = 0;
    for field in fields {
        all += field.width();
    }
    all
}

// Where the field of a slot stands in the table, or 0 where there is none.
pub(crate) fn entry(fields: &[FbField], slot: usize) -> usize
    requires { length fields.now ≤ 64 }
    ensures { result ≡ entry slot 4 (by_width (blanks (parts_of fields.now))) }
{
    let mut from = 4;
    for width in WIDTHS {
        for field in fields {
            if field.width() == width {
                if field.slot() == slot {
                    return from;
                }
                from += width;
            }
        }
    }
    0
}

// Where a table stands behind its vtable of `slots` slots.
#[tactic(auto, unfolding(crate::specs::Layout::table_place))]
pub(crate) fn table_place(slots: usize) -> usize
    requires { slots ≤ 64 }
    ensures value { result ≡ table_place slots }
    ensures least { 4 + 2 * slots ≤ result }
    ensures bound { result ≤ 2 * slots + 11 }
{
    round_up(2 * slots) + 4
}

// The least multiple of 8 that isn't below `n`.
#[tactic(auto, unfolding(crate::specs::Layout::round_up))]
pub(crate) fn round_up(n: usize) -> usize
    requires { n < 2 ^ 40 }
    ensures value { result ≡ round_up n }
    ensures least { n ≤ result }
    ensures bound { result ≤ n + 7 }
{
    (n + 7) / 8 * 8
}
