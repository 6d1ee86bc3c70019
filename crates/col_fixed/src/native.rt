// Whole numbers of a fixed width, as a buffer of a column holds them: two's complement, little-endian
// (Arrow columnar format, fixed-size primitive layout).
ghost use Rattle.std.specs.Prelude.{◌≡◌, ℕ, ◌*◌, ◌/◌, ◌<◌, List, length, map, slice_index, slice_index_or, ℤ, pos, ◌+ℤ◌, ◌-ℤ◌, ◌*ℤ◌, FitsSigned, IfOk, refl};
ghost use Rattle.std.specs.Bool.{FalseIff};
ghost use Rattle.std.specs.Int.{Width, w8, w16, w32, w64, w128, cast_signed, cast_unsigned, int_wrap};
ghost use Rattle.std.specs.Ordering.{int_cmp, is_eq, is_lt};
ghost use Rattle.std.specs.List.{flat_map};
ghost use mir.Val.{bits};
ghost use Rattle.std.specs.Simd.{first_chunks};
ghost use Rattle.std.specs.Simd.Lanes.{zip2, mask_l};
ghost use Rattle.std.specs.Cmp.{IsTotalOrder, int_cmp_total};
ghost use Rattle.byteorder.specs.Endian.{little_bytes, little_number};
ghost use Rattle.byteorder.specs.Numbers.{length-bytes_low_first};
ghost use Rattle.col_fixed.specs.Native.{has_bytes, reads_back, read_fits};

use byteorder::{ByteOrder, LittleEndian};
use std::alloc::Global;
use std::cmp::Ordering;
use std::simd::prelude::*;
use sub_types::NoMemory;

/// A signed whole number that takes `SIZE` bytes.
pub trait Native: Copy {
    ghost SIZE: { ℕ };

    ghost width: { Width };

    // The whole number that a value is.
    ghost number: { Self → ℤ };

    // The value of a list of bytes, and the bytes of a value.
    ghost value_of: { List ℕ → Self };

    ghost bytes_of: { Self → List ℕ };

    ghost zero: { Self };

    /// The size in bytes.
    const SIZE: usize;

    fn zero() -> Self
        ensures { result ≡ zero };

    /// The value of `SIZE` bytes, the lowest first.
    fn read_le(bytes: &[u8]) -> Self
        requires { length bytes.now ≡ SIZE }
        ensures { result ≡ value_of bytes.now };

    /// The values of each whole chunk of `SIZE` bytes.
    fn read_all(alloc: Global, bytes: &[u8]) -> Result<Vec<Self>, NoMemory>
        ensures { IfOk result (λ values. values.items ≡ map value_of (first_chunks SIZE (length bytes.now / SIZE) bytes.now)) };

    /// Writes the value as `SIZE` bytes, the lowest first.
    fn write_le(self, into: &mut [u8])
        requires { length into.old ≡ SIZE }
        ensures { into.new ≡ bytes_of self };

    /// Writes all values one behind the other, each as `SIZE` bytes, the lowest first.
    fn write_all(values: &[Self], into: &mut [u8])
        requires { length into.old ≡ SIZE * length values.now }
        ensures { into.new ≡ flat_map bytes_of values.now };

    /// How the two compare as whole numbers.
    fn order(self, other: Self) -> Ordering
        ensures { result ≡ int_cmp (number self) (number other) };

    /// Which of eight values are less than those at their places, the first in the lowest bit.
    fn less_of_eight(left: &[Self], right: &[Self]) -> u8
        requires left { length left.now ≡ 8 }
        requires right { length right.now ≡ 8 }
        ensures { result ≡ mask_l (zip2 (λ x y. is_lt (int_cmp (number x) (number y))) left.now right.now) };

    /// Which of eight values are equal to those at their places, the first in the lowest bit.
    fn equal_of_eight(left: &[Self], right: &[Self]) -> u8
        requires left { length left.now ≡ 8 }
        requires right { length right.now ≡ 8 }
        ensures { result ≡ mask_l (zip2 (λ x y. is_eq (int_cmp (number x) (number y))) left.now right.now) };

    /// The whole number, in 128 bits.
    fn wide(self) -> i128
        ensures value { result ≡ number self }
        ensures fits { FitsSigned width (number self) };

    /// What is left of a whole number in the bits of the type, in two's complement.
    fn wrapped(n: i128) -> Self
        ensures { number result ≡ int_wrap width n };

    /// What is left of the sum, and whether that isn't the sum.
    fn plus(self, other: Self) -> (Self, bool)
        ensures value { number result.0 ≡ int_wrap width (number self +ℤ number other) }
        ensures lost { FalseIff result.1 (FitsSigned width (number self +ℤ number other)) };

    /// What is left of the difference, and whether that isn't the difference.
    fn minus(self, other: Self) -> (Self, bool)
        ensures value { number result.0 ≡ int_wrap width (number self -ℤ number other) }
        ensures lost { FalseIff result.1 (FitsSigned width (number self -ℤ number other)) };

    /// What is left of the product, and whether that isn't the product.
    fn times(self, other: Self) -> (Self, bool)
        ensures value { number result.0 ≡ int_wrap width (number self *ℤ number other) }
        ensures lost { FalseIff result.1 (FitsSigned width (number self *ℤ number other)) };

    // A value takes a byte at least.
    ghost has_bytes: { 0 < SIZE };

    ghost sized: { bits width ≡ 8 * SIZE };

    // Reading what was written gives the value.
    ghost reads_back: { (x : Self) → FitsSigned width (number x) → value_of (bytes_of x) ≡ x };

    // A value is its whole number, so that the order is total and tells all values apart.
    ghost same_number: { (x y : Self) → number x ≡ number y → x ≡ y };

    ghost total: { IsTotalOrder (λ (x y : Self). int_cmp (number x) (number y)) };

    ghost number_of_zero: { number zero ≡ pos 0 };

    // Bytes are read as two's complement, the lowest first, and values are written so.
    ghost number_of_read: { (bytes : List ℕ) → number (value_of bytes) ≡ cast_signed width (little_number SIZE bytes) };

    ghost bytes_of_value: { (x : Self) → bytes_of x ≡ little_bytes SIZE (cast_unsigned width (number x)) };

    ghost length_bytes: { (x : Self) → length (bytes_of x) ≡ SIZE };

    // What is read is in range.
    ghost read_fits: { (bytes : List ℕ) → ((i : ℕ) → slice_index bytes i < 256) → FitsSigned width (number (value_of bytes)) };
}

impl Native for i8 {
    ghost SIZE = { 1 };

    ghost width = { w8 };

    ghost number = { λ x. x };

    ghost value_of = { λ bytes. cast_signed w8 (little_number 1 bytes) };

    ghost bytes_of = { λ x. little_bytes 1 (cast_unsigned w8 x) };

    ghost zero = { pos 0 };

    const SIZE: usize = 1;

    fn zero() -> i8 {
        0
    }

    fn read_le(bytes: &[u8]) -> i8 {
        bytes[0].cast_signed()
    }

    fn read_all(alloc: Global, bytes: &[u8]) -> Result<Vec<i8>, NoMemory> {
        let (chunks, _) = bytes.as_chunks::<1>();
        let mut values = Vec::with_capacity(alloc, chunks.len())?;
        for chunk in chunks {
            values.push_reserved(chunk[0].cast_signed());
        }
        Ok(values)
    }

    fn write_le(self, into: &mut [u8]) {
        into[0] = self.cast_unsigned();
    }

    fn write_all(values: &[i8], into: &mut [u8]) {
        'values: for i in 0..values.len() {
            into[i] = values[i].cast_unsigned();
        }
    }

    fn order(self, other: i8) -> Ordering {
        self.cmp(&other)
    }

    fn less_of_eight(left: &[i8], right: &[i8]) -> u8 {
        i8_fit(left);
        i8_fit(right);
        i8x8::from_slice(left)
            .simd_lt(i8x8::from_slice(right))
            .to_bitmask() as u8
    }

    fn equal_of_eight(left: &[i8], right: &[i8]) -> u8 {
        i8_fit(left);
        i8_fit(right);
        i8x8::from_slice(left)
            .simd_eq(i8x8::from_slice(right))
            .to_bitmask() as u8
    }

    fn wide(self) -> i128 {
        i128::from(self)
    }

    fn wrapped(n: i128) -> i8 {
        (n.rem_euclid(1 << 8) as u8).cast_signed()
    }

    fn plus(self, other: i8) -> (i8, bool) {
        self.overflowing_add(other)
    }

    fn minus(self, other: i8) -> (i8, bool) {
        self.overflowing_sub(other)
    }

    fn times(self, other: i8) -> (i8, bool) {
        self.overflowing_mul(other)
    }

    ghost has_bytes = { has_bytes 0 };

    ghost sized = { refl };

    ghost reads_back = { λ x fits. reads_back w8 1 refl x fits };

    ghost same_number = { λ x y same. same };

    ghost total = { int_cmp_total };

    ghost number_of_zero = { refl };

    ghost number_of_read = { λ bytes. refl };

    ghost bytes_of_value = { λ x. refl };

    ghost length_bytes = { λ x. length-bytes_low_first 0 1 (cast_unsigned w8 x) };

    ghost read_fits = { λ bytes all. read_fits w8 1 refl bytes all };
}

impl Native for i16 {
    ghost SIZE = { 2 };

    ghost width = { w16 };

    ghost number = { λ x. x };

    ghost value_of = { λ bytes. cast_signed w16 (little_number 2 bytes) };

    ghost bytes_of = { λ x. little_bytes 2 (cast_unsigned w16 x) };

    ghost zero = { pos 0 };

    const SIZE: usize = 2;

    fn zero() -> i16 {
        0
    }

    fn read_le(bytes: &[u8]) -> i16 {
        LittleEndian::read_i16(bytes)
    }

    fn read_all(alloc: Global, bytes: &[u8]) -> Result<Vec<i16>, NoMemory> {
        let (chunks, _) = bytes.as_chunks::<2>();
        let mut values = Vec::with_capacity(alloc, chunks.len())?;
        for chunk in chunks {
            values.push_reserved(LittleEndian::read_i16(chunk));
        }
        Ok(values)
    }

    fn write_le(self, into: &mut [u8]) {
        LittleEndian::write_i16(into, self);
    }

    fn write_all(values: &[i16], into: &mut [u8]) {
        LittleEndian::write_i16_into(values, into);
    }

    fn order(self, other: i16) -> Ordering {
        self.cmp(&other)
    }

    fn less_of_eight(left: &[i16], right: &[i16]) -> u8 {
        i16_fit(left);
        i16_fit(right);
        i16x8::from_slice(left)
            .simd_lt(i16x8::from_slice(right))
            .to_bitmask() as u8
    }

    fn equal_of_eight(left: &[i16], right: &[i16]) -> u8 {
        i16_fit(left);
        i16_fit(right);
        i16x8::from_slice(left)
            .simd_eq(i16x8::from_slice(right))
            .to_bitmask() as u8
    }

    fn wide(self) -> i128 {
        i128::from(self)
    }

    fn wrapped(n: i128) -> i16 {
        (n.rem_euclid(1 << 16) as u16).cast_signed()
    }

    fn plus(self, other: i16) -> (i16, bool) {
        self.overflowing_add(other)
    }

    fn minus(self, other: i16) -> (i16, bool) {
        self.overflowing_sub(other)
    }

    fn times(self, other: i16) -> (i16, bool) {
        self.overflowing_mul(other)
    }

    ghost has_bytes = { has_bytes 1 };

    ghost sized = { refl };

    ghost reads_back = { λ x fits. reads_back w16 2 refl x fits };

    ghost same_number = { λ x y same. same };

    ghost total = { int_cmp_total };

    ghost number_of_zero = { refl };

    ghost number_of_read = { λ bytes. refl };

    ghost bytes_of_value = { λ x. refl };

    ghost length_bytes = { λ x. length-bytes_low_first 0 2 (cast_unsigned w16 x) };

    ghost read_fits = { λ bytes all. read_fits w16 2 refl bytes all };
}

impl Native for i32 {
    ghost SIZE = { 4 };

    ghost width = { w32 };

    ghost number = { λ x. x };

    ghost value_of = { λ bytes. cast_signed w32 (little_number 4 bytes) };

    ghost bytes_of = { λ x. little_bytes 4 (cast_unsigned w32 x) };

    ghost zero = { pos 0 };

    const SIZE: usize = 4;

    fn zero() -> i32 {
        0
    }

    fn read_le(bytes: &[u8]) -> i32 {
        LittleEndian::read_i32(bytes)
    }

    fn read_all(alloc: Global, bytes: &[u8]) -> Result<Vec<i32>, NoMemory> {
        let (chunks, _) = bytes.as_chunks::<4>();
        let mut values = Vec::with_capacity(alloc, chunks.len())?;
        for chunk in chunks {
            values.push_reserved(LittleEndian::read_i32(chunk));
        }
        Ok(values)
    }

    fn write_le(self, into: &mut [u8]) {
        LittleEndian::write_i32(into, self);
    }

    fn write_all(values: &[i32], into: &mut [u8]) {
        LittleEndian::write_i32_into(values, into);
    }

    fn order(self, other: i32) -> Ordering {
        self.cmp(&other)
    }

    fn less_of_eight(left: &[i32], right: &[i32]) -> u8 {
        i32_fit(left);
        i32_fit(right);
        i32x8::from_slice(left)
            .simd_lt(i32x8::from_slice(right))
            .to_bitmask() as u8
    }

    fn equal_of_eight(left: &[i32], right: &[i32]) -> u8 {
        i32_fit(left);
        i32_fit(right);
        i32x8::from_slice(left)
            .simd_eq(i32x8::from_slice(right))
            .to_bitmask() as u8
    }

    fn wide(self) -> i128 {
        i128::from(self)
    }

    fn wrapped(n: i128) -> i32 {
        (n.rem_euclid(1 << 32) as u32).cast_signed()
    }

    fn plus(self, other: i32) -> (i32, bool) {
        self.overflowing_add(other)
    }

    fn minus(self, other: i32) -> (i32, bool) {
        self.overflowing_sub(other)
    }

    fn times(self, other: i32) -> (i32, bool) {
        self.overflowing_mul(other)
    }

    ghost has_bytes = { has_bytes 3 };

    ghost sized = { refl };

    ghost reads_back = { λ x fits. reads_back w32 4 refl x fits };

    ghost same_number = { λ x y same. same };

    ghost total = { int_cmp_total };

    ghost number_of_zero = { refl };

    ghost number_of_read = { λ bytes. refl };

    ghost bytes_of_value = { λ x. refl };

    ghost length_bytes = { λ x. length-bytes_low_first 0 4 (cast_unsigned w32 x) };

    ghost read_fits = { λ bytes all. read_fits w32 4 refl bytes all };
}

impl Native for i64 {
    ghost SIZE = { 8 };

    ghost width = { w64 };

    ghost number = { λ x. x };

    ghost value_of = { λ bytes. cast_signed w64 (little_number 8 bytes) };

    ghost bytes_of = { λ x. little_bytes 8 (cast_unsigned w64 x) };

    ghost zero = { pos 0 };

    const SIZE: usize = 8;

    fn zero() -> i64 {
        0
    }

    fn read_le(bytes: &[u8]) -> i64 {
        LittleEndian::read_i64(bytes)
    }

    fn read_all(alloc: Global, bytes: &[u8]) -> Result<Vec<i64>, NoMemory> {
        let (chunks, _) = bytes.as_chunks::<8>();
        let mut values = Vec::with_capacity(alloc, chunks.len())?;
        for chunk in chunks {
            values.push_reserved(LittleEndian::read_i64(chunk));
        }
        Ok(values)
    }

    fn write_le(self, into: &mut [u8]) {
        LittleEndian::write_i64(into, self);
    }

    fn write_all(values: &[i64], into: &mut [u8]) {
        LittleEndian::write_i64_into(values, into);
    }

    fn order(self, other: i64) -> Ordering {
        self.cmp(&other)
    }

    fn less_of_eight(left: &[i64], right: &[i64]) -> u8 {
        i64_fit(left);
        i64_fit(right);
        i64x8::from_slice(left)
            .simd_lt(i64x8::from_slice(right))
            .to_bitmask() as u8
    }

    fn equal_of_eight(left: &[i64], right: &[i64]) -> u8 {
        i64_fit(left);
        i64_fit(right);
        i64x8::from_slice(left)
            .simd_eq(i64x8::from_slice(right))
            .to_bitmask() as u8
    }

    fn wide(self) -> i128 {
        i128::from(self)
    }

    fn wrapped(n: i128) -> i64 {
        (n.rem_euclid(1 << 64) as u64).cast_signed()
    }

    fn plus(self, other: i64) -> (i64, bool) {
        self.overflowing_add(other)
    }

    fn minus(self, other: i64) -> (i64, bool) {
        self.overflowing_sub(other)
    }

    fn times(self, other: i64) -> (i64, bool) {
        self.overflowing_mul(other)
    }

    ghost has_bytes = { has_bytes 7 };

    ghost sized = { refl };

    ghost reads_back = { λ x fits. reads_back w64 8 refl x fits };

    ghost same_number = { λ x y same. same };

    ghost total = { int_cmp_total };

    ghost number_of_zero = { refl };

    ghost number_of_read = { λ bytes. refl };

    ghost bytes_of_value = { λ x. refl };

    ghost length_bytes = { λ x. length-bytes_low_first 0 8 (cast_unsigned w64 x) };

    ghost read_fits = { λ bytes all. read_fits w64 8 refl bytes all };
}

impl Native for i128 {
    ghost SIZE = { 16 };

    ghost width = { w128 };

    ghost number = { λ x. x };

    ghost value_of = { λ bytes. cast_signed w128 (little_number 16 bytes) };

    ghost bytes_of = { λ x. little_bytes 16 (cast_unsigned w128 x) };

    ghost zero = { pos 0 };

    const SIZE: usize = 16;

    fn zero() -> i128 {
        0
    }

    fn read_le(bytes: &[u8]) -> i128 {
        LittleEndian::read_i128(bytes)
    }

    fn read_all(alloc: Global, bytes: &[u8]) -> Result<Vec<i128>, NoMemory> {
        let (chunks, _) = bytes.as_chunks::<16>();
        let mut values = Vec::with_capacity(alloc, chunks.len())?;
        for chunk in chunks {
            values.push_reserved(LittleEndian::read_i128(chunk));
        }
        Ok(values)
    }

    fn write_le(self, into: &mut [u8]) {
        LittleEndian::write_i128(into, self);
    }

    fn write_all(values: &[i128], into: &mut [u8]) {
        LittleEndian::write_i128_into(values, into);
    }

    fn order(self, other: i128) -> Ordering {
        self.cmp(&other)
    }

    fn less_of_eight(left: &[i128], right: &[i128]) -> u8 {
        i128_fit(left);
        i128_fit(right);
        let mut mask = 0;
        for i in 0..8 {
            if left[i] < right[i] {
                mask += 1 << i;
            }
        }
        mask
    }

    fn equal_of_eight(left: &[i128], right: &[i128]) -> u8 {
        i128_fit(left);
        i128_fit(right);
        let mut mask = 0;
        for i in 0..8 {
            if left[i] == right[i] {
                mask += 1 << i;
            }
        }
        mask
    }

    fn wide(self) -> i128 {
        self
    }

    fn wrapped(n: i128) -> i128 {
        n
    }

    fn plus(self, other: i128) -> (i128, bool) {
        self.overflowing_add(other)
    }

    fn minus(self, other: i128) -> (i128, bool) {
        self.overflowing_sub(other)
    }

    fn times(self, other: i128) -> (i128, bool) {
        self.overflowing_mul(other)
    }

    ghost has_bytes = { has_bytes 15 };

    ghost sized = { refl };

    ghost reads_back = { λ x fits. reads_back w128 16 refl x fits };

    ghost same_number = { λ x y same. same };

    ghost total = { int_cmp_total };

    ghost number_of_zero = { refl };

    ghost number_of_read = { λ bytes. refl };

    ghost bytes_of_value = { λ x. refl };

    ghost length_bytes = { λ x. length-bytes_low_first 0 16 (cast_unsigned w128 x) };

    ghost read_fits = { λ bytes all. read_fits w128 16 refl bytes all };
}

// Each number fits its type. It does nothing when it runs.
fn i8_fit(all: &[i8])
    ensures { (i : ℕ) → i < length all.now → FitsSigned w8 (slice_index_or all.now i (pos 0)) }
{
    for x in all {
        let _ = i8_fits(x);
    }
}

fn i8_fits(x: &i8) -> i8
    ensures fits { FitsSigned w8 x.now }
    ensures value { result ≡ x.now }
{
    *x
}

// Each number fits its type. It does nothing when it runs.
fn i16_fit(all: &[i16])
    ensures { (i : ℕ) → i < length all.now → FitsSigned w16 (slice_index_or all.now i (pos 0)) }
{
    for x in all {
        let _ = i16_fits(x);
    }
}

fn i16_fits(x: &i16) -> i16
    ensures fits { FitsSigned w16 x.now }
    ensures value { result ≡ x.now }
{
    *x
}

// Each number fits its type. It does nothing when it runs.
fn i32_fit(all: &[i32])
    ensures { (i : ℕ) → i < length all.now → FitsSigned w32 (slice_index_or all.now i (pos 0)) }
{
    for x in all {
        let _ = i32_fits(x);
    }
}

fn i32_fits(x: &i32) -> i32
    ensures fits { FitsSigned w32 x.now }
    ensures value { result ≡ x.now }
{
    *x
}

// Each number fits its type. It does nothing when it runs.
fn i64_fit(all: &[i64])
    ensures { (i : ℕ) → i < length all.now → FitsSigned w64 (slice_index_or all.now i (pos 0)) }
{
    for x in all {
        let _ = i64_fits(x);
    }
}

fn i64_fits(x: &i64) -> i64
    ensures fits { FitsSigned w64 x.now }
    ensures value { result ≡ x.now }
{
    *x
}

fn i128_fit(all: &[i128])
    ensures { (i : ℕ) → i < length all.now → FitsSigned w128 (slice_index_or all.now i (pos 0)) }
{
    for x in all {
        let _ = i128_fits(x);
    }
}

fn i128_fits(x: &i128) -> i128
    ensures fits { FitsSigned w128 x.now }
    ensures value { result ≡ x.now }
{
    *x
}
