// The words of a command line, read by position.
ghost use Rattle.std.specs.Prelude.{◌≡◌, ◌≤◌, ◌↔◌, IsTrue, IfSome, length};
ghost use Rattle.std.specs.List.{list_all};
ghost use Rattle.std.specs.Option.{option_map};
ghost use Rattle.run_words.specs.Words as spec;
ghost use Rattle.run_words.specs.Words.{number_within, IsNumber, demo_of, are_names, is_binding, are_bindings, reading_of, plan_to_check};
ghost use Rattle.run_words.specs.ReadingSeen.{reading_seen, demo_seen};

use itoa::Buffer;
use sub_types::Word;

/// The most workers of a run.
const MAX_WORKERS: u32 = 64;

/// The most orders of the demo.
const MAX_ORDERS: u32 = 200_000;

/// The most bindings of a run.
const MAX_BINDINGS: usize = 1024;

/// `run` of a plan file into an out file on so many workers, and the words that bind names to files.
#[derive(Clone, Copy, Debug)]
pub struct Reading<'a> {
    pub plan: &'a str,
    pub out: &'a str,
    pub workers: u32,
    pub bindings: &'a [Word],
}

/// `demo` of so many orders, on so many workers.
#[derive(Clone, Copy, Debug)]
pub struct DemoReading {
    pub number: u32,
    pub workers: u32,
}

/// The command that a command line is of.
#[derive(Clone, Copy, Debug)]
pub enum Command {
    Run,
    Check,
    Demo,
}

/// The command that the first word names. What names no command is answered by `run`, as faulty words.
pub fn command_of(words: &[Word]) -> Command
    ensures { result ≡ spec.command_of words.now }
{
    let [word, ..] = words else {
        return Command::Run;
    };
    match word.text() {
        "check" => Command::Check,
        "demo" => Command::Demo,
        _ => Command::Run,
    }
}

/// What the words say, or `None` where they have no reading.
#[tactic(auto, unfolding(crate::specs::Words::reading_of))]
pub fn read_words<'a>(words: &'a [Word]) -> Option<Reading<'a>>
    ensures reading { option_map reading_seen result ≡ reading_of words.entry.now }
    ensures workers { IfSome result (λ reading. 1 ≤ reading.workers) }
    ensures few_workers { IfSome result (λ reading. reading.workers ≤ 64) }
    ensures few { IfSome result (λ reading. length reading.bindings.now ≤ MAX_BINDINGS) }
{
    let [command, plan, out, workers, bindings @ ..] = words else {
        return None;
    };
    if command.text() != "run"
        || !names_two_files(plan.text(), out.text())
        || !binds_all(bindings, out.text())
    {
        return None;
    }
    let workers = number(workers.text(), MAX_WORKERS)?;
    Some(Reading {
        plan: plan.text(),
        out: out.text(),
        workers,
        bindings,
    })
}

/// The plan of `check PLAN`, or `None` where the words aren't that.
#[tactic(auto, unfolding(crate::specs::Words::plan_to_check))]
pub fn read_check(words: &[Word]) -> Option<&str>
    ensures { option_map (λ plan. plan.now) result ≡ plan_to_check words.entry.now }
{
    let [command, plan] = words else {
        return None;
    };
    if command.text() != "check" || plan.text().is_empty() {
        return None;
    }
    Some(plan.text())
}

/// What the words of `demo NUMBER WORKERS` say, or `None` where they aren't that.
#[tactic(auto, unfolding(crate::specs::Words::demo_of))]
pub fn read_demo(words: &[Word]) -> Option<DemoReading>
    ensures reading { option_map demo_seen result ≡ demo_of words.now }
    ensures number { IfSome result (λ reading. (1 ≤ reading.number) × (reading.number ≤ MAX_ORDERS)) }
    ensures workers { IfSome result (λ reading. (1 ≤ reading.workers) × (reading.workers ≤ 64)) }
{
    let [command, orders, seats] = words else {
        return None;
    };
    if command.text() != "demo" {
        return None;
    }
    Some(DemoReading {
        number: number(orders.text(), MAX_ORDERS)?,
        workers: number(seats.text(), MAX_WORKERS)?,
    })
}

// Both files are named, and by two names.
fn names_two_files(plan: &str, out: &str) -> bool
    ensures { result ≡ are_names plan.now out.now }
{
    !plan.is_empty() && !out.is_empty() && out != plan
}

// The words bind names to files other than the out file, and aren't too many.
fn binds_all(words: &[Word], out: &str) -> bool
    ensures { result ≡ are_bindings out.now words.now }
{
    words.len() <= MAX_BINDINGS && all_bind(words, out)
}

// Each of the words does.
fn all_bind(words: &[Word], out: &str) -> bool
    ensures { result ≡ list_all (is_binding out.now) words.now }
{
    for word in words.iter() {
        if !binds(word.text(), out) {
            return false;
        }
    }
    true
}

// The word binds a name to a file, which isn't the out file.
fn binds(word: &str, out: &str) -> bool
    ensures { result ≡ is_binding out.now word.now }
{
    let Some((name, file)) = word.split_once('=') else {
        return false;
    };
    !name.is_empty() && !file.is_empty() && file != out
}

// The number from 1 to `most` whose decimal digits are the word.
fn number(word: &str, most: u32) -> Option<u32>
    ensures number { result ≡ number_within most word.now }
    ensures some { IfSome result (λ n. (1 ≤ n) × (n ≤ most)) }
{
    let Ok(number) = word.parse::<u32>() else {
        return None;
    };
    if !is_number(word, number, most) {
        return None;
    }
    Some(number)
}

// The word is just the digits of the number, which is from 1 to `most`.
fn is_number(word: &str, number: u32, most: u32) -> bool
    ensures { IsTrue result ↔ IsNumber word.now number most }
{
    let mut buffer = Buffer::new();
    buffer.format(number) == word && 1 <= number && number <= most
}
