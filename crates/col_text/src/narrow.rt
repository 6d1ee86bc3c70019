// Texts whose ends take four bytes each, and those at some places of them.
ghost use Rattle.std.specs.Prelude.{◌≡◌, ◌^◌, ◌<◌, ◌≤◌, ◌∷◌, ◌++◌, [], length, map, take, slice_index, slice_index_or, OnOk, IfOk};
ghost use Rattle.std.specs.List.{concat};
ghost use Rattle.col_text.specs.Text.{ends_of, pieces, picked, Rise};

use std::alloc::Global;
use std::marker::Model;
use sub_types::NoMemory;

// A text of at most so many bytes is copied as a block of so many, which is then cut: a copy whose size is known
// beforehand is no call.
const BLOCK: usize = 16;

/// Texts, lent: where the first begins in the bytes, where each ends, and the bytes up to the last end. Contracts see
/// the list of texts.
#[derive(Drop)]
pub(crate) struct NarrowTexts<'a> {
    first: usize,
    ends: &'a [u32],
    bytes: &'a [u8],
}

impl<'a> Model for NarrowTexts<'a> {
    ghost use Rattle.std.specs.Prelude.{ℕ, List, length};
    ghost use Rattle.col_text.specs.Text.{pieces, Rise};

    ghost Value = { List (List ℕ) };

    ghost view = { λ texts. pieces texts.first texts.ends.now texts.bytes.now };

    ghost invariant = { λ texts. Rise texts.first texts.ends.now (length texts.bytes.now) };
}

impl<'a> NarrowTexts<'a> {
    pub(crate) fn new(first: usize, ends: &'a [u32], bytes: &'a [u8]) -> NarrowTexts<'a>
        requires { Rise first ends.now (length bytes.now) }
        ensures { result ≡ pieces first ends.now bytes.now }
    {
        NarrowTexts { first, ends, bytes }
    }

    // The bytes from where the text at a place begins, and how many of them are its own: none where there is no text.
    #[inline]
    fn text_at(&self, i: u64) -> (&'a [u8], usize)
        ensures within { result.1 ≤ length result.0.now }
        ensures text { take result.1 result.0.now ≡ slice_index_or self.now i [] }
    {
        if i >= self.ends.len() as u64 {
            return (self.bytes, 0);
        }
        let place = i as usize;
        let begin = begin_at(self.first, self.ends, place);
        let end = self.ends[place] as usize;
        (&self.bytes[begin..], end - begin)
    }

    /// Where the texts at these places end, one behind the other, and how many bytes they have, if these are fewer
    /// than 2^32.
    pub(crate) fn gather_ends(
        &self,
        alloc: Global,
        at: &[u64],
    ) -> Result<(Vec<u32>, usize), NoMemory>
        ensures { IfOk result (λ gathered. gathered.1 < 2 ^ 32 → gathered.0.items ≡ ends_of 0 (picked self.now at.now)) }
    {
        let mut ends = Vec::with_capacity(alloc, at.len())?;
        let mut end: usize = 0;
        for i in at {
            let (_, size) = self.text_at(*i);
            end = end.saturating_add(size);
            ends.push_reserved((end % (1 << 32)) as u32);
        }
        Ok((ends, end))
    }

    /// The bytes of the texts at these places, one behind the other, of which `size` are awaited.
    pub(crate) fn gather_bytes(
        &self,
        alloc: Global,
        at: &[u64],
        size: usize,
    ) -> Result<Vec<u8>, NoMemory>
        ensures { IfOk result (λ bytes. bytes.items ≡ concat (picked self.now at.now)) }
    {
        // The last text's block may end behind it.
        let mut bytes = Vec::with_capacity(alloc, size.saturating_add(BLOCK))?;
        for i in at {
            let (text, size) = self.text_at(*i);
            push_first(&mut bytes, text, size)?;
        }
        Ok(bytes)
    }
}

// Where the text at a place begins: at `first`, or where the one before it ends.
#[inline]
fn begin_at(first: usize, ends: &[u32], place: usize) -> usize
    requires { place ≤ length ends.now }
    ensures { result ≡ slice_index (first ∷ ends.now) place }
{
    if place == 0 {
        return first;
    }
    ends[place - 1] as usize
}

// Adds the first `size` of these bytes.
#[inline]
fn push_first(bytes: &mut Vec<u8>, more: &[u8], size: usize) -> Result<(), NoMemory>
    requires { size ≤ length more.now }
    ensures ok { OnOk result (bytes.new.items ≡ bytes.old.items ++ take size more.now) }
{
    if size > BLOCK || more.len() < BLOCK {
        bytes.extend_from_slice(&more[..size])?;
        return Ok(());
    }
    bytes.extend_from_slice(&more[..BLOCK])?;
    bytes.truncate(bytes.len() - (BLOCK - size));
    Ok(())
}
