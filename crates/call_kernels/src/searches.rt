// One search for a pattern in all texts of a column: its bytes are those of the texts one behind the other.
ghost use Rattle.std.specs.Prelude.{◌≡◌, ◌-◌, ◌<◌, ◌≤◌, ℕ, [], length, map, nat_le, replicate, slice_index, Ok, IfOk, IfSome};
ghost use Rattle.std.specs.List.{All};
ghost use Rattle.std.specs.Str.{IsUtf8};
ghost use Rattle.std.specs.Simd.Lanes.{zip2};
ghost use Rattle.memchr.specs.Find.{FindsNeedle};
ghost use Rattle.sub_types.specs.Nullable.{bool_value, bytes_value};
ghost use Rattle.sub_types.specs.Slots.{slots};
ghost use Rattle.sub_types.specs.declared.value.Value.TheVariants as worth;
ghost use Rattle.plan_denote.specs.Texts as texts;

use col_fixed::BoolCol;
use col_text::{Ends, TextCol};
use memchr::memmem::Finder;
use std::alloc::Global;
use sub_types::{Bits, NoMemory};

/// Whether each text of a column contains the pattern.
pub(crate) fn contain_column(
    alloc: Global,
    column: &TextCol,
    pattern: &[u8],
) -> Result<BoolCol, NoMemory>
    requires texts { All (λ text. IfSome text IsUtf8) column.now }
    requires pattern { IsUtf8 pattern.now }
    ensures { IfOk result (λ truths. map (λ truth. Ok (bool_value truth)) truths ≡ zip2 (texts.tested texts.contains) (map bytes_value column.now) (replicate (length column.now) (worth.Bytes pattern.now))) }
{
    let values = marks(alloc, column, pattern)?;
    let valid = column.validity().part(alloc, 0, column.len())?;
    Ok(BoolCol::from_parts(values, valid))
}

/// Which texts contain the pattern, as if each null were empty.
fn marks(alloc: Global, column: &TextCol, pattern: &[u8]) -> Result<Bits, NoMemory>
    ensures { IfOk result (λ bits. bits ≡ map (λ text. texts.contains text pattern.now) (slots [] column.now)) }
{
    if pattern.is_empty() {
        return Bits::ones(alloc, column.len());
    }
    marks_found(alloc, column, pattern)
}

/// The same of a pattern that isn't empty. What is found in a text, or begins in it and goes on into the next, settles that
/// text and those before it that are left; the search goes on from the next text.
fn marks_found(alloc: Global, column: &TextCol, pattern: &[u8]) -> Result<Bits, NoMemory>
    requires { 0 < length pattern.now }
    ensures { IfOk result (λ bits. bits ≡ map (λ text. texts.contains text pattern.now) (slots [] column.now)) }
{
    let finder = Finder::new(pattern);
    let hay = column.bytes();
    let edges = column.ends();
    let mut bits = Bits::zeros(alloc, column.len())?;
    let mut row = 0;
    let mut at = 0;
    while let Some(place) = place_from(&finder, hay, at) {
        let hit = row_at(edges, row, place);
        at = edges.get(hit);
        bits.put(hit, fits(pattern.len(), place, at));
        row = hit + 1;
    }
    Ok(bits)
}

/// The first place from one on at which the pattern stands.
fn place_from(finder: &Finder<'_>, bytes: &[u8], from: usize) -> Option<usize>
    requires { from ≤ length bytes.now }
    ensures { FindsNeedle bytes.now finder.now from result }
{
    let found = finder.find(&bytes[from..])?;
    Some(from + found)
}

/// The first row from one on that ends behind a place.
fn row_at(ends: &Ends, from: usize, place: usize) -> usize
    requires within { from < length ends.now }
    requires last { place < slice_index ends.now (length ends.now - 1) }
    ensures rising { from ≤ result }
    ensures there { result < length ends.now }
    ensures before { (k : ℕ) → from ≤ k → k < result → slice_index ends.now k ≤ place }
    ensures behind { place < slice_index ends.now result }
{
    let _count = ends.len();
    let mut row = from;
    while ends.get(row) <= place {
        row += 1;
    }
    row
}

/// Whether so many bytes lie between two places.
fn fits(len: usize, begin: usize, end: usize) -> bool
    requires { begin ≤ end }
    ensures { result ≡ nat_le len (end - begin) }
{
    len <= end - begin
}
