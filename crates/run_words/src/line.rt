// The line that is said of an answer, in pieces that are borrowed or lie in fixed buffers.
ghost use Rattle.std.specs.Prelude.{◌≡◌, [], ◌∷◌, ◌++◌, IsTrue, false, decimal, codes};
ghost use Rattle.std.specs.Option.{option_map_or};
ghost use Rattle.std.specs.List.{flat_map};
ghost use Rattle.world.specs.Counts.{Rose};
ghost use Rattle.world.specs.Notes.{said};
ghost use Rattle.run_words.specs.Lines.{rule_words, file_rule_words, fault_words, told_text, line_of, check_line_of};
ghost use Rattle.run_words.specs.Said.{IsSaid, words_seen};

use crate::status::Status;
use itoa::Buffer;
use plan_verdict::Rule;
use std::alloc::Global;
use sub_types::FaultKind;
use table_open::FileRule;
use world::Notes;

/// A variant's name, and the numbers in the order of its fields.
#[derive(Clone, Copy, Debug)]
struct Words {
    name: &'static str,
    first: Option<u64>,
    second: Option<u64>,
}

/// Says the line of an answer. After a piece that wasn't said whole nothing more is said.
#[tactic(auto, unfolding(crate::specs::Lines::line_of))]
pub fn say_line<N: Notes>(alloc: Global, notes: &mut N, status: &Status)
    ensures { IsSaid (N.text notes.old) (N.text notes.new) (N.failures notes.old) (N.failures notes.new) (line_of status.now) }
{
    match status {
        Status::Ok(report) => say_count(alloc, notes, "ok ", report.rows, " rows\n"),
        Status::Usage => say_text(
            alloc,
            notes,
            "usage: run PLAN OUT WORKERS NAME=FILE.. or check PLAN or demo NUMBER WORKERS\n",
        ),
        Status::PlanUnreadable { place } => {
            say_count(alloc, notes, "plan unreadable at byte ", *place, "\n");
        }
        Status::PlanRefused { relation, rule } => {
            say_told(
                alloc,
                notes,
                "plan refused: relation ",
                *relation,
                ": ",
                of_rule(rule),
            );
        }
        Status::FileRefused { file, rule } => {
            say_told(
                alloc,
                notes,
                "file ",
                *file,
                " refused: ",
                of_file_rule(rule),
            );
        }
        Status::DataFault { fault } => {
            say_told(
                alloc,
                notes,
                "data fault: relation ",
                fault.relation,
                ": ",
                of_fault(&fault.kind),
            );
        }
        Status::ReadFault => say_text(alloc, notes, "read fault\n"),
        Status::WriteFault => say_text(alloc, notes, "write fault\n"),
        Status::NoMemory => say_text(alloc, notes, "no memory\n"),
    }
}

/// Says the line of an answer of `check`.
#[tactic(auto, unfolding(crate::specs::Lines::check_line_of))]
pub fn say_check_line<N: Notes>(alloc: Global, notes: &mut N, status: &Status)
    ensures { IsSaid (N.text notes.old) (N.text notes.new) (N.failures notes.old) (N.failures notes.new) (check_line_of status.now) }
{
    match status {
        Status::Ok(_) => say_text(alloc, notes, "plan accepted\n"),
        refusal => say_line(alloc, notes, refusal),
    }
}

// Says one text.
#[tactic(auto, using(crate::proofs::SaidLaws::one_piece))]
fn say_text<N: Notes>(alloc: Global, notes: &mut N, text: &str)
    ensures { IsSaid (N.text notes.old) (N.text notes.new) (N.failures notes.old) (N.failures notes.new) text.now }
{
    say_pieces(alloc, notes, &[text.as_bytes()]);
}

// Says a number between two texts.
fn say_count<N: Notes>(
    alloc: Global,
    notes: &mut N,
    start: &'static str,
    number: u64,
    end: &'static str,
)
    ensures { IsSaid (N.text notes.old) (N.text notes.new) (N.failures notes.old) (N.failures notes.new) (start.entry.now ++ decimal number ++ end.entry.now) }
{
    let mut digits = Buffer::new();
    say_three(alloc, notes, start, digits.format(number), end);
}

#[tactic(auto, using(crate::proofs::SaidLaws::three_pieces))]
fn say_three<'a, N: Notes>(
    alloc: Global,
    notes: &mut N,
    first: &'a str,
    second: &'a str,
    third: &'a str,
)
    ensures { IsSaid (N.text notes.old) (N.text notes.new) (N.failures notes.old) (N.failures notes.new) (first.entry.now ++ second.entry.now ++ third.entry.now) }
{
    say_pieces(
        alloc,
        notes,
        &[first.as_bytes(), second.as_bytes(), third.as_bytes()],
    );
}

/// Says the pieces one after the other, up to the first that isn't said whole. Whether all of them were said.
pub fn say_pieces<N: Notes>(alloc: Global, notes: &mut N, pieces: &[&[u8]]) -> bool
    ensures said { IsSaid (N.text notes.old) (N.text notes.new) (N.failures notes.old) (N.failures notes.new) (flat_map (λ piece. piece.now) pieces.now) }
    ensures whole { IsTrue result → N.text notes.new ≡ said (N.text notes.old) (flat_map (λ piece. piece.now) pieces.now) }
    ensures failed { result ≡ false → Rose (N.failures notes.old) (N.failures notes.new) }
{
    for piece in pieces {
        let Ok(()) = notes.say(alloc, piece) else {
            return false;
        };
    }
    true
}

// Says what is refused or faulty: a number and a name with its numbers.
#[tactic(auto, using(crate::proofs::SaidLaws::told_pieces))]
fn say_told<N: Notes>(
    alloc: Global,
    notes: &mut N,
    start: &str,
    number: u32,
    middle: &str,
    words: Words,
)
    ensures { IsSaid (N.text notes.old) (N.text notes.new) (N.failures notes.old) (N.failures notes.new)
        (told_text start.now number middle.now (words_seen words)) }
{
    let mut number_digits = Buffer::new();
    let mut first_digits = Buffer::new();
    let mut second_digits = Buffer::new();
    say_parts(
        alloc,
        notes,
        start,
        number_digits.format(number),
        middle,
        words.name,
        space(words.first),
        digits(&mut first_digits, words.first),
        space(words.second),
        digits(&mut second_digits, words.second),
    );
}

// Says a number between two texts, a name, two numbers each behind a space, and the end of the line.
fn say_parts<'a, N: Notes>(
    alloc: Global,
    notes: &mut N,
    start: &'a str,
    number: &'a str,
    middle: &'a str,
    name: &'a str,
    first_space: &'a str,
    first: &'a str,
    second_space: &'a str,
    second: &'a str,
)
    ensures { IsSaid (N.text notes.old) (N.text notes.new) (N.failures notes.old) (N.failures notes.new)
        (start.entry.now ++ (number.entry.now ++ (middle.entry.now ++ (name.entry.now ++ (first_space.entry.now ++ (first.entry.now
        ++ (second_space.entry.now ++ (second.entry.now ++ (codes "\n" ++ []))))))))) }
{
    let pieces = [
        start.as_bytes(),
        number.as_bytes(),
        middle.as_bytes(),
        name.as_bytes(),
        first_space.as_bytes(),
        first.as_bytes(),
        second_space.as_bytes(),
        second.as_bytes(),
        "\n".as_bytes(),
    ];
    say_pieces(alloc, notes, &pieces);
}

// A space before a number that is there.
fn space(number: Option<u64>) -> &'static str
    ensures { result.now ≡ option_map_or (λ _. 32 ∷ []) number [] }
{
    match number {
        Some(_) => " ",
        None => "",
    }
}

// The digits of a number that is there.
fn digits(buffer: &mut Buffer, number: Option<u64>) -> &str
    ensures { result.now ≡ option_map_or decimal number [] }
{
    match number {
        Some(number) => buffer.format(number),
        None => "",
    }
}

// A name without numbers.
fn bare(name: &'static str) -> Words
    ensures { words_seen result ≡ record { name = name.entry.now; numbers = [] } }
{
    Words {
        name,
        first: None,
        second: None,
    }
}

// A name and one number.
fn with_one(name: &'static str, first: u64) -> Words
    ensures { words_seen result ≡ record { name = name.entry.now; numbers = first ∷ [] } }
{
    Words {
        name,
        first: Some(first),
        second: None,
    }
}

// A name and two numbers.
fn with_two(name: &'static str, first: u32, second: u32) -> Words
    ensures { words_seen result ≡ record { name = name.entry.now; numbers = first ∷ second ∷ [] } }
{
    Words {
        name,
        first: Some(u64::from(first)),
        second: Some(u64::from(second)),
    }
}

fn of_rule(rule: &Rule) -> Words
    ensures { words_seen result ≡ rule_words rule.now }
{
    match rule {
        Rule::UnknownRelation { number } => with_one("UnknownRelation", u64::from(*number)),
        Rule::UnsupportedForm => bare("UnsupportedForm"),
        Rule::MissingField => bare("MissingField"),
        Rule::UnknownFunction => bare("UnknownFunction"),
        Rule::BadArguments => bare("BadArguments"),
        Rule::TypeMismatch => bare("TypeMismatch"),
        Rule::BadReference => bare("BadReference"),
        Rule::BadMapping => bare("BadMapping"),
        Rule::UnsupportedType => bare("UnsupportedType"),
        Rule::UnsupportedOption => bare("UnsupportedOption"),
        Rule::BadLiteral => bare("BadLiteral"),
        Rule::BadNames => bare("BadNames"),
        Rule::TooMany => bare("TooMany"),
    }
}

fn of_file_rule(rule: &FileRule) -> Words
    ensures { words_seen result ≡ file_rule_words rule.now }
{
    match rule {
        FileRule::Unbound { relation } => with_one("Unbound", u64::from(*relation)),
        FileRule::Missing => bare("Missing"),
        FileRule::NotArrow => bare("NotArrow"),
        FileRule::BadFooter { place } => with_one("BadFooter", *place),
        FileRule::Compressed => bare("Compressed"),
        FileRule::Unsupported { column } => with_one("Unsupported", u64::from(*column)),
        FileRule::NoColumn { relation, column } => with_two("NoColumn", *relation, *column),
        FileRule::WrongType { relation, column } => with_two("WrongType", *relation, *column),
    }
}

fn of_fault(kind: &FaultKind) -> Words
    ensures { words_seen result ≡ fault_words kind.now }
{
    match kind {
        FaultKind::Overflow => bare("Overflow"),
        FaultKind::DivideByZero => bare("DivideByZero"),
        FaultKind::BadCast => bare("BadCast"),
        FaultKind::BadStart => bare("BadStart"),
        FaultKind::TextTooLong => bare("TextTooLong"),
        FaultKind::NullInRequired => bare("NullInRequired"),
        FaultKind::BadBatch { file, block } => with_two("BadBatch", *file, *block),
        FaultKind::TooManyRows => bare("TooManyRows"),
        FaultKind::ManyRows => bare("ManyRows"),
    }
}
