// What the demo says, in pieces that are borrowed or lie in fixed buffers.
ghost use Rattle.std.specs.Prelude.{◌≡◌, ◌++◌, IsTrue, false, codes};
ghost use Rattle.std.specs.List.{flat_map};
ghost use Rattle.world.specs.Counts.{Rose};
ghost use Rattle.world.specs.Notes.{said};
ghost use Rattle.run_words.specs.Said.{IsSaid};
ghost use Rattle.gen_data.specs.Summary.{value_text as spec_value_text, row_line};

use itoa::Buffer;
use plan_leaves::Items;
use run_words::say_pieces;
use std::alloc::Global;
use sub_types::Value;
use world::Notes;

/// Says a line for each row. After a piece that wasn't said whole nothing more is said.
pub(crate) fn say_summary<N: Notes>(alloc: Global, notes: &mut N, rows: &[Items<Value>])
    ensures { IsSaid (N.text notes.old) (N.text notes.new) (N.failures notes.old) (N.failures notes.new) (flat_map row_line rows.now) }
{
    for row in rows {
        if !say_row(alloc, notes, row.as_slice()) {
            return;
        }
    }
}

// Says the line of a row: region, sum and count. Whether all of it was said.
fn say_row<N: Notes>(alloc: Global, notes: &mut N, row: &[Value]) -> bool
    ensures part { IsSaid (N.text notes.old) (N.text notes.new) (N.failures notes.old) (N.failures notes.new) (row_line row.now) }
    ensures whole { IsTrue result → N.text notes.new ≡ said (N.text notes.old) (row_line row.now) }
    ensures failed { result ≡ false → Rose (N.failures notes.old) (N.failures notes.new) }
{
    let [region, sum, count] = row else {
        return say_pieces(alloc, notes, &[]);
    };
    let mut region_digits = Buffer::new();
    let mut sum_digits = Buffer::new();
    let mut count_digits = Buffer::new();
    say_three(
        alloc,
        notes,
        value_text(region, &mut region_digits),
        value_text(sum, &mut sum_digits),
        value_text(count, &mut count_digits),
    )
}

// Says three texts with one space between them, and the end of the line. Whether all of it was said.
fn say_three<'a, N: Notes>(
    alloc: Global,
    notes: &mut N,
    first: &'a [u8],
    second: &'a [u8],
    third: &'a [u8],
) -> bool
    ensures part { IsSaid (N.text notes.old) (N.text notes.new) (N.failures notes.old) (N.failures notes.new)
        (first.entry.now ++ (codes " " ++ (second.entry.now ++ (codes " " ++ (third.entry.now ++ codes "\n"))))) }
    ensures whole { IsTrue result → N.text notes.new ≡ said (N.text notes.old) (first.entry.now ++ (codes " " ++ (second.entry.now ++ (codes " " ++ (third.entry.now ++ codes "\n"))))) }
    ensures failed { result ≡ false → Rose (N.failures notes.old) (N.failures notes.new) }
{
    let pieces = [
        first,
        " ".as_bytes(),
        second,
        " ".as_bytes(),
        third,
        "\n".as_bytes(),
    ];
    say_pieces(alloc, notes, &pieces)
}

// A text as it is, a whole number in decimal digits, and `null`.
fn value_text<'a>(value: &'a Value, digits: &'a mut Buffer) -> &'a [u8]
    ensures { result.now ≡ spec_value_text value.entry.now }
{
    match value {
        Value::Null => b"null",
        Value::Int(number) => digits.format(*number).as_bytes(),
        Value::Bytes(text) => text.bytes(),
        Value::Bool(_) | Value::Dec(_) => b"",
    }
}
