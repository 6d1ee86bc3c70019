// Truth values, packed eight to a byte, the least bit first, as the Arrow columnar format lays out a bitmap.
ghost use Rattle.std.specs.Prelude.{◌≡◌, ◌≢◌, ◌+◌, ◌*◌, ◌<◌, ◌≤◌, ◌&&◌, ◌||◌, ℕ, List, [], ◌∷◌, ◌++◌, true, false, length, take, replicate, slice_set, slice_index, slice_index_or, ◌/◌, ◌%◌, ◌^◌, map, All, count_by, OnOk, OnErr, IfOk, IsTrue, ◌↔◌};
ghost use Rattle.std.specs.List.{slice_range, range_with_len};
ghost use Rattle.sub_types.specs.Bits.{bit_of, bits_of, IsPacked};
ghost use Rattle.sub_types.specs.BitSteps.{is_set, both, either, IsMade, Continues, IsJoined, HoldsFrom, IsPushed, IsZipped};

use crate::NoMemory;
use std::alloc::Global;
use std::marker::Model;

/// A list of truth values.
#[derive(Debug, Drop)]
pub struct Bits {
    bytes: Vec<u8>,
    len: usize,
}

impl Model for Bits {
    ghost use Rattle.std.specs.Prelude.{List, Bool};
    ghost use Rattle.sub_types.specs.Bits.{bits_of, IsPacked};

    ghost Value = { List Bool };

    ghost view = { λ bits. bits_of bits.len bits.bytes.items };

    ghost invariant = { λ bits. IsPacked bits.len bits.bytes.items };
}

impl Bits {
    /// No truth values. It takes no memory.
    pub fn new(alloc: Global) -> Bits
        ensures { result ≡ [] }
    {
        Bits {
            bytes: Vec::new(alloc),
            len: 0,
        }
    }

    /// `n` times false.
    pub fn zeros(alloc: Global, n: usize) -> Result<Bits, NoMemory>
        ensures { IfOk result (λ bits. bits ≡ replicate n false) }
    {
        let bytes = vec![in alloc; 0; byte_count(n)]?;
        Ok(Bits { bytes, len: n })
    }

    /// `n` times true.
    pub fn ones(alloc: Global, n: usize) -> Result<Bits, NoMemory>
        ensures { IfOk result (λ bits. bits ≡ replicate n true) }
    {
        let bytes = vec![in alloc; 255; byte_count(n)]?;
        Ok(Bits { bytes, len: n })
    }

    /// The first `len` bits of the bytes. It takes no memory.
    pub fn from_packed(bytes: Vec<u8>, len: usize) -> Bits
        requires { IsPacked len bytes.items }
        ensures { result ≡ bits_of len bytes.items }
    {
        Bits { bytes, len }
    }

    pub fn len(&self) -> usize
        ensures { result ≡ length self.now }
    {
        self.len
    }

    pub fn is_empty(&self) -> bool
        ensures { IsTrue result ↔ (self.now ≡ []) }
    {
        self.len == 0
    }

    pub fn get(&self, i: usize) -> bool
        requires { i < length self.now }
        ensures { result ≡ slice_index_or self.now i false }
    {
        bit_at(&self.bytes, i)
    }

    pub fn put(&mut self, i: usize, b: bool)
        requires { i < length self.old }
        ensures { self.new ≡ slice_set self.old i b }
    {
        put_bit(&mut self.bytes, i, b);
    }

    /// Adds one at the end.
    pub fn push(&mut self, b: bool) -> Result<(), NoMemory>
        ensures ok { OnOk result (self.new ≡ self.old ++ b ∷ []) }
        ensures err { OnErr result (self.new ≡ self.old) }
    {
        // No memory holds so many bits.
        let Some(grown) = self.len.checked_add(1) else {
            return Err(NoMemory);
        };
        make_room(&mut self.bytes, self.len)?;
        put_bit(&mut self.bytes, self.len, b);
        self.len = grown;
        Ok(())
    }

    /// Adds the values of `more` from `from` to before `to` at the end.
    pub fn append(&mut self, more: &Bits, from: usize, to: usize) -> Result<(), NoMemory>
        requires rising { from ≤ to }
        requires within { to ≤ length more.now }
        ensures ok { OnOk result (self.new ≡ self.old ++ slice_range more.now from to) }
        ensures err { OnErr result (self.new ≡ self.old) }
    {
        // No memory holds so many bits.
        let Some(grown) = self.len.checked_add(to - from) else {
            return Err(NoMemory);
        };
        grow(&mut self.bytes, self.len, grown, &more.bytes, from)?;
        self.len = grown;
        Ok(())
    }

    /// Those from `from` to before `to`, as a list of its own.
    pub fn part(&self, alloc: Global, from: usize, to: usize) -> Result<Bits, NoMemory>
        requires rising { from ≤ to }
        requires within { to ≤ length self.now }
        ensures { IfOk result (λ bits. bits ≡ slice_range self.now from to) }
    {
        let mut part = Bits::new(alloc);
        part.append(self, from, to)?;
        Ok(part)
    }

    /// Those at these places, in their order.
    pub fn gather(&self, alloc: Global, at: &[u64]) -> Result<Bits, NoMemory>
        requires { All (λ i. i < length self.now) at.now }
        ensures { IfOk result (λ bits. bits ≡ map (λ i. slice_index_or self.now i false) at.now) }
    {
        let mut bytes = vec![in alloc; 0; byte_count(at.len())]?;
        pick(&mut bytes, &self.bytes, at);
        Ok(Bits {
            bytes,
            len: at.len(),
        })
    }

    /// Takes memory for so many more, so that adding them needs none.
    pub fn reserve(&mut self, more: usize) -> Result<(), NoMemory>
        ensures { self.new ≡ self.old }
    {
        self.bytes.reserve(byte_count(more))?;
        Ok(())
    }

    /// Each one and the one at the same place of `which`. It takes no memory.
    pub fn mask(&mut self, which: &Bits)
        requires { length which.now ≡ length self.old }
        ensures { self.new ≡ both self.old which.now }
    {
        and_bytes(&mut self.bytes, &which.bytes);
    }

    /// Each one or the one at the same place of `which`. It takes no memory.
    pub fn unite(&mut self, which: &Bits)
        requires { length which.now ≡ length self.old }
        ensures { self.new ≡ either self.old which.now }
    {
        or_bytes(&mut self.bytes, &which.bytes);
    }

    /// How many are true.
    pub fn count(&self) -> usize
        ensures { result ≡ count_by (λ b. b) self.now }
    {
        count_bits(&self.bytes, self.len)
    }

    /// Whether all are true.
    pub fn is_all(&self) -> bool
        ensures { IsTrue result ↔ (self.now ≡ replicate (length self.now) true) }
    {
        self.count() == self.len
    }

    /// Keeps the first `n`, or all where there are fewer.
    pub fn truncate(&mut self, n: usize)
        ensures { self.new ≡ take n self.old }
    {
        if n < self.len {
            self.bytes.truncate(byte_count(n));
            self.len = n;
        }
    }

    /// The bytes that hold them: as many as they need, and nothing is said of the bits past the last.
    pub fn bytes(&self) -> &[u8]
        ensures bits { bits_of (length self.now) result.now ≡ self.now }
        ensures packed { IsPacked (length self.now) result.now }
    {
        &self.bytes
    }
}

// How many bytes so many bits need.
fn byte_count(n: usize) -> usize
    ensures enough { n ≤ 8 * result }
    ensures no_more { 8 * result < n + 8 }
{
    if n % 8 == 0 { n / 8 } else { n / 8 + 1 }
}

// Makes room for one bit more.
fn make_room(bytes: &mut Vec<u8>, len: usize) -> Result<(), NoMemory>
    requires { IsPacked len bytes.old.items }
    ensures room { OnOk result (IsPacked (len + 1) bytes.new.items) }
    ensures same { OnOk result ((k : ℕ) → bit_of bytes.new.items k ≡ bit_of bytes.old.items k) }
    ensures err { OnErr result (bytes.new.items ≡ bytes.old.items) }
{
    if len % 8 == 0 {
        bytes.push(0)?;
    }
    Ok(())
}

fn bit_at(bytes: &[u8], i: usize) -> bool
    requires { i < 8 * length bytes.now }
    ensures { result ≡ bit_of bytes.now i }
{
    bytes[i / 8] >> (i % 8) & 1 == 1
}

fn put_bit(bytes: &mut [u8], i: usize, b: bool)
    requires { i < 8 * length bytes.old }
    ensures put { bit_of bytes.new i ≡ b }
    ensures others { (k : ℕ) → k ≢ i → bit_of bytes.new k ≡ bit_of bytes.old k }
    ensures len { length bytes.new ≡ length bytes.old }
{
    let byte = bytes[i / 8];
    bytes[i / 8] = if b {
        byte | 1 << (i % 8)
    } else {
        byte & !(1 << (i % 8))
    };
}

// Adds the bits of `more` from `from` on, so that there are `grown` in all, where there were `len`.
fn grow(
    bytes: &mut Vec<u8>,
    len: usize,
    grown: usize,
    more: &[u8],
    from: usize,
) -> Result<(), NoMemory>
    requires packed { IsPacked len bytes.old.items }
    requires rising { len ≤ grown }
    requires within { from + grown ≤ 8 * length more.now + len }
    requires fits { from + grown < 2 ^ 64 + len }
    ensures ok { OnOk result (Continues bytes.old.items bytes.new.items more.now len from grown) }
    ensures packed { OnOk result (IsPacked grown bytes.new.items) }
    ensures err { OnErr result (bytes.new.items ≡ bytes.old.items) }
{
    if len % 8 == 0 && from % 8 == 0 {
        return copy_bytes(bytes, len, grown, more, from);
    }
    bytes.resize(byte_count(grown), 0)?;
    fill(bytes, len, grown, more, from);
    Ok(())
}

// The same where whole bytes can be copied.
fn copy_bytes(
    bytes: &mut Vec<u8>,
    len: usize,
    grown: usize,
    more: &[u8],
    from: usize,
) -> Result<(), NoMemory>
    requires packed { IsPacked len bytes.old.items }
    requires rising { len ≤ grown }
    requires within { from + grown ≤ 8 * length more.now + len }
    requires whole { len % 8 ≡ 0 }
    requires whole_from { from % 8 ≡ 0 }
    ensures ok { OnOk result (Continues bytes.old.items bytes.new.items more.now len from grown) }
    ensures packed { OnOk result (IsPacked grown bytes.new.items) }
    ensures err { OnErr result (bytes.new.items ≡ bytes.old.items) }
{
    let first = from / 8;
    let (_, rest) = more.split_at(first);
    let (copied, _) = rest.split_at(byte_count(grown - len));
    bytes.extend_from_slice(copied)?;
    Ok(())
}

// Writes the bits of `more` from `from` on over those from `len` on, byte by byte.
fn fill(bytes: &mut [u8], len: usize, grown: usize, more: &[u8], from: usize)
    requires rising { len ≤ grown }
    requires enough { grown ≤ 8 * length bytes.old }
    requires no_more { 8 * length bytes.old < grown + 8 }
    requires fits { from + grown < 2 ^ 64 + len }
    ensures filled { Continues bytes.old bytes.new more.now len from grown }
    ensures len { length bytes.new ≡ length bytes.old }
{
    let first = fill_first(bytes, len, more, from);
    for i in first..bytes.len() {
        bytes[i] = byte_from(more, from + (8 * i - len));
    }
}

// Fills the byte that the bits end in, if they end in one. What follows is whole bytes from the result on.
fn fill_first(bytes: &mut [u8], len: usize, more: &[u8], from: usize) -> usize
    requires within { len ≤ 8 * length bytes.old }
    ensures filled { Continues bytes.old bytes.new more.now len from (8 * result) }
    ensures next { len ≤ 8 * result }
    ensures near { 8 * result < len + 8 }
    ensures len { length bytes.new ≡ length bytes.old }
{
    let used = len % 8;
    if used == 0 {
        return len / 8;
    }
    bytes[len / 8] = joined(bytes[len / 8], byte_from(more, from), used);
    len / 8 + 1
}

// The first `used` bits of a byte, and then the bits of the next.
fn joined(own: u8, next: u8, used: usize) -> u8
    requires low { 0 < used }
    requires high { used < 8 }
    ensures { IsJoined own next used result }
{
    let free = 8 - used;
    own << free >> free | next << used
}

// Eight bits from a bit on. Those past the last byte are false.
fn byte_from(bytes: &[u8], at: usize) -> u8
    ensures { HoldsFrom bytes.now at result }
{
    let shift = at % 8;
    let low = byte_or_zero(bytes, at / 8);
    if shift == 0 {
        return low;
    }
    let high = byte_or_zero(bytes, at / 8 + 1);
    low >> shift | high << (8 - shift)
}

fn byte_or_zero(bytes: &[u8], i: usize) -> u8
    ensures { result ≡ slice_index bytes.now i }
{
    if i < bytes.len() { bytes[i] } else { 0 }
}

// Writes the bits that stand at these places, eight at a time.
fn pick(bytes: &mut [u8], source: &[u8], at: &[u64])
    requires no_more { 8 * length bytes.old < length at.now + 8 }
    requires within { All (λ i. i < 8 * length source.now) at.now }
    ensures made { IsMade (λ k. bit_of source.now (slice_index at.now k)) (length at.now) bytes.new (length bytes.old) }
    ensures len { length bytes.new ≡ length bytes.old }
{
    for i in 0..bytes.len() {
        bytes[i] = next_picked(source, at, 8 * i);
    }
}

// The bits that stand at the next eight places, or at the last of them.
fn next_picked(source: &[u8], at: &[u64], from: usize) -> u8
    requires there { from ≤ length at.now }
    requires within { All (λ i. i < 8 * length source.now) at.now }
    ensures { (k : ℕ) → k < 8 → from + k < length at.now → is_set result k ≡ bit_of source.now (slice_index at.now (from + k)) }
{
    let left = at.len() - from;
    if left < 8 {
        return picked(source, at, from, left);
    }
    picked(source, at, from, 8)
}

// The bits that stand at up to eight places.
fn picked(source: &[u8], at: &[u64], from: usize, count: usize) -> u8
    requires few { count ≤ 8 }
    requires there { from + count ≤ length at.now }
    requires within { All (λ i. i < 8 * length source.now) at.now }
    ensures { (k : ℕ) → k < count → is_set result k ≡ bit_of source.now (slice_index at.now (from + k)) }
{
    let mut byte = 0;
    for j in 0..count {
        let place = at[from + (count - 1 - j)] as usize;
        byte = pushed(byte, bit_at(source, place));
    }
    byte
}

// The bits of a byte one place up, and below them this.
fn pushed(byte: u8, bit: bool) -> u8
    ensures { IsPushed byte bit result }
{
    byte << 1 | u8::from(bit)
}

// Each byte and the one at the same place of `which`.
fn and_bytes(bytes: &mut [u8], which: &[u8])
    requires { length which.now ≡ length bytes.old }
    ensures zipped { IsZipped ◌&&◌ bytes.old which.now bytes.new (length bytes.old) }
    ensures len { length bytes.new ≡ length bytes.old }
{
    for i in 0..bytes.len() {
        bytes[i] = bytes[i] & which[i];
    }
}

// Each byte or the one at the same place of `which`.
fn or_bytes(bytes: &mut [u8], which: &[u8])
    requires { length which.now ≡ length bytes.old }
    ensures zipped { IsZipped ◌||◌ bytes.old which.now bytes.new (length bytes.old) }
    ensures len { length bytes.new ≡ length bytes.old }
{
    for i in 0..bytes.len() {
        bytes[i] = bytes[i] | which[i];
    }
}

// How many of the first `len` bits are set.
fn count_bits(bytes: &[u8], len: usize) -> usize
    requires { len ≤ 8 * length bytes.now }
    ensures { result ≡ count_by (bit_of bytes.now) (range_with_len 0 len) }
{
    let mut count = 0;
    for i in 0..len / 8 {
        count += count_first(bytes[i], 8);
    }
    let left = len % 8;
    if left == 0 {
        return count;
    }
    count + count_first(bytes[len / 8], left)
}

// How many of the first `n` bits of a byte are set.
fn count_first(byte: u8, n: usize) -> usize
    requires some { 0 < n }
    requires few { n ≤ 8 }
    ensures { result ≡ count_by (is_set byte) (range_with_len 0 n) }
{
    (byte & (255 >> (8 - n))).count_ones() as usize
}
