// Tests of texts.
ghost use Rattle.std.specs.Prelude.{◌≡◌, ◌+◌, ℕ, length, map, replicate, Ok, IfOk, IfSome, option_copied};
ghost use Rattle.std.specs.Str.{IsUtf8};
ghost use Rattle.std.specs.Simd.Lanes.{zip2};
ghost use Rattle.sub_types.specs.Nullable.{bool_value, bytes_value};
ghost use Rattle.sub_types.specs.declared.value.Value.TheVariants as worth;
ghost use Rattle.plan_denote.specs.Texts as texts;
ghost use Rattle.call_kernels.specs.Functions.{text_func, passes};
ghost use Rattle.call_kernels.specs.Operand.{values};
ghost use Rattle.call_kernels.specs.Texts as spec;

use crate::Operand;
use crate::searches::contain_column;
use batch::ColumnData;
use col_fixed::{BoolBuilder, BoolCol};
use col_text::TextCol;
use plan_typed::Func;
use std::alloc::Global;
use sub_types::{Kind, NoMemory, Value};

/// A test of two texts.
#[derive(Clone, Copy)]
pub(crate) enum TextTest {
    StartsWith,
    EndsWith,
    Contains,
    Like,
}

/// A column of texts or binaries, or one at each place, or null.
#[derive(Drop)]
pub(crate) enum Texts<'a> {
    Column(&'a TextCol),
    Constant(Option<&'a [u8]>),
}

/// The test of texts that a function is.
pub(crate) fn text_test_of(func: Func) -> Option<TextTest>
    ensures { IfSome result (λ test. func ≡ text_func test) }
{
    match func {
        Func::StartsWith => Some(TextTest::StartsWith),
        Func::EndsWith => Some(TextTest::EndsWith),
        Func::Contains => Some(TextTest::Contains),
        Func::Like => Some(TextTest::Like),
        _ => None,
    }
}

/// The test at each place, where both arguments are texts.
pub(crate) fn test_two(
    alloc: Global,
    test: TextTest,
    a: Operand<'_>,
    b: Operand<'_>,
    n: usize,
) -> Result<Option<BoolCol>, NoMemory>
    requires a { length (values n a) ≡ n }
    requires b { length (values n b) ≡ n }
    ensures { IfOk result (λ found. IfSome found (λ column. map (λ truth. Ok (bool_value truth)) column ≡ zip2 (texts.tested (passes test)) (values n a.entry) (values n b.entry))) }
{
    let Some(left) = texts_of(a) else {
        return Ok(None);
    };
    let Some(right) = texts_of(b) else {
        return Ok(None);
    };
    Ok(Some(test_each(alloc, test, &left, &right, n)?))
}

/// The texts that an argument is, if it is made of them.
fn texts_of(operand: Operand<'_>) -> Option<Texts<'_>>
    ensures values { IfSome result (λ found. (n : ℕ) → map bytes_value (spec.listed n found) ≡ values n operand.entry) }
    ensures utf8 { IfSome result (λ found. spec.AreTexts found) }
{
    match operand {
        Operand::Column(column) => match &column.values {
            ColumnData::Bytes(texts) => match column.ty.kind {
                Kind::Text => Some(Texts::Column(texts)),
                _ => None,
            },
            _ => None,
        },
        Operand::Constant(value) => {
            let text = constant_text(value)?;
            Some(Texts::Constant(text))
        }
    }
}

/// The text that a value is, if it is one or null.
fn constant_text(value: &Value) -> Option<Option<&[u8]>>
    ensures value { IfSome result (λ text. bytes_value (option_copied text) ≡ value.now) }
    ensures utf8 { IfSome result (λ text. IfSome (option_copied text) IsUtf8) }
{
    match value {
        Value::Bytes(bytes) => match simdutf8::basic::from_utf8(bytes.bytes()) {
            Ok(text) => Some(Some(text.as_bytes())),
            Err(_) => None,
        },
        Value::Null => Some(None),
        _ => None,
    }
}

/// The test at each place. Where one pattern is sought in all texts of a column, one search goes through all of them.
fn test_each(
    alloc: Global,
    test: TextTest,
    a: &Texts<'_>,
    b: &Texts<'_>,
    n: usize,
) -> Result<BoolCol, NoMemory>
    requires a { length (spec.listed n a.now) ≡ n }
    requires b { length (spec.listed n b.now) ≡ n }
    requires a_utf8 { spec.AreTexts a.now }
    requires b_utf8 { spec.AreTexts b.now }
    ensures { IfOk result (λ column. map (λ truth. Ok (bool_value truth)) column ≡ zip2 (texts.tested (passes test)) (map bytes_value (spec.listed n a.now)) (map bytes_value (spec.listed n b.now))) }
{
    match test {
        TextTest::Contains => contain_two(alloc, a, b, n),
        _ => test_texts(alloc, test, a, b, n),
    }
}

/// Whether each text contains the other.
fn contain_two(alloc: Global, a: &Texts<'_>, b: &Texts<'_>, n: usize) -> Result<BoolCol, NoMemory>
    requires a { length (spec.listed n a.now) ≡ n }
    requires b { length (spec.listed n b.now) ≡ n }
    requires a_utf8 { spec.AreTexts a.now }
    requires b_utf8 { spec.AreTexts b.now }
    ensures { IfOk result (λ column. map (λ truth. Ok (bool_value truth)) column ≡ zip2 (texts.tested texts.contains) (map bytes_value (spec.listed n a.now)) (map bytes_value (spec.listed n b.now))) }
{
    match b {
        Texts::Column(_) => test_texts(alloc, TextTest::Contains, a, b, n),
        Texts::Constant(pattern) => contain_constant(alloc, a, b, *pattern, n),
    }
}

/// Whether each text contains the pattern that the others are.
fn contain_constant(
    alloc: Global,
    a: &Texts<'_>,
    b: &Texts<'_>,
    pattern: Option<&[u8]>,
    n: usize,
) -> Result<BoolCol, NoMemory>
    requires a { length (spec.listed n a.now) ≡ n }
    requires b { length (spec.listed n b.now) ≡ n }
    requires a_utf8 { spec.AreTexts a.now }
    requires b_utf8 { spec.AreTexts b.now }
    requires pattern { IfSome (option_copied pattern) IsUtf8 }
    requires constant { spec.listed n b.now ≡ replicate n (option_copied pattern) }
    ensures { IfOk result (λ column. map (λ truth. Ok (bool_value truth)) column ≡ zip2 (texts.tested texts.contains) (map bytes_value (spec.listed n a.now)) (map bytes_value (spec.listed n b.now))) }
{
    match pattern {
        Some(pattern) => contain_known(alloc, a, b, pattern, n),
        None => test_texts(alloc, TextTest::Contains, a, b, n),
    }
}

/// The same of a pattern that isn't null.
fn contain_known(
    alloc: Global,
    a: &Texts<'_>,
    b: &Texts<'_>,
    pattern: &[u8],
    n: usize,
) -> Result<BoolCol, NoMemory>
    requires a { length (spec.listed n a.now) ≡ n }
    requires b { length (spec.listed n b.now) ≡ n }
    requires a_utf8 { spec.AreTexts a.now }
    requires b_utf8 { spec.AreTexts b.now }
    requires pattern { IsUtf8 pattern.now }
    requires constant { map bytes_value (spec.listed n b.now) ≡ replicate n (worth.Bytes pattern.now) }
    ensures { IfOk result (λ column. map (λ truth. Ok (bool_value truth)) column ≡ zip2 (texts.tested texts.contains) (map bytes_value (spec.listed n a.now)) (map bytes_value (spec.listed n b.now))) }
{
    match a {
        Texts::Column(column) => contain_column(alloc, column, pattern),
        Texts::Constant(_) => test_texts(alloc, TextTest::Contains, a, b, n),
    }
}

/// The test at each place.
fn test_texts(
    alloc: Global,
    test: TextTest,
    a: &Texts<'_>,
    b: &Texts<'_>,
    n: usize,
) -> Result<BoolCol, NoMemory>
    requires a { length (spec.listed n a.now) ≡ n }
    requires b { length (spec.listed n b.now) ≡ n }
    requires a_utf8 { spec.AreTexts a.now }
    requires b_utf8 { spec.AreTexts b.now }
    ensures { IfOk result (λ column. map (λ truth. Ok (bool_value truth)) column ≡ zip2 (texts.tested (passes test)) (map bytes_value (spec.listed n a.now)) (map bytes_value (spec.listed n b.now))) }
{
    let mut column = BoolBuilder::with_capacity(alloc, n)?;
    for i in 0..n {
        column.push(tested(test, text_at(a, i), text_at(b, i)))?;
    }
    Ok(column.finish())
}

/// The text at a place.
fn text_at<'a>(all: &Texts<'a>, i: usize) -> Option<&'a [u8]>
    requires there { spec.Reaches all.now (i + 1) }
    requires utf8 { spec.AreTexts all.now }
    ensures text { option_copied result ≡ spec.text_of all.now i }
    ensures utf8 { IfSome (option_copied result) IsUtf8 }
{
    match all {
        Texts::Column(column) => column.value_at(i),
        Texts::Constant(text) => *text,
    }
}

/// The test of two texts that may be missing.
fn tested(test: TextTest, text: Option<&[u8]>, pattern: Option<&[u8]>) -> Option<bool>
    requires text { IfSome (option_copied text) IsUtf8 }
    requires pattern { IfSome (option_copied pattern) IsUtf8 }
    ensures { Ok (bool_value result) ≡ texts.tested (passes test) (bytes_value (option_copied text.entry)) (bytes_value (option_copied pattern.entry)) }
{
    match text {
        Some(text) => tested_against(test, text, pattern),
        None => None,
    }
}

/// The same where there is a text.
fn tested_against(test: TextTest, text: &[u8], pattern: Option<&[u8]>) -> Option<bool>
    requires text { IsUtf8 text.now }
    requires pattern { IfSome (option_copied pattern) IsUtf8 }
    ensures { Ok (bool_value result) ≡ texts.tested (passes test) (worth.Bytes text.now) (bytes_value (option_copied pattern.entry)) }
{
    match pattern {
        Some(pattern) => Some(does_pass(test, text, pattern)),
        None => None,
    }
}

fn does_pass(test: TextTest, text: &[u8], pattern: &[u8]) -> bool
    requires text { IsUtf8 text.now }
    requires pattern { IsUtf8 pattern.now }
    ensures { result ≡ passes test text.now pattern.now }
{
    match test {
        TextTest::StartsWith => text_match::starts_with(text, pattern),
        TextTest::EndsWith => text_match::ends_with(text, pattern),
        TextTest::Contains => text_match::contains(text, pattern),
        TextTest::Like => text_match::like(text, pattern),
    }
}
