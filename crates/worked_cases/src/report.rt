// What the program prints.
use crate::case::Failure;
use crate::run::{Difference, Differing, Variant};
use std::{fmt, io};

/// A case that differs: its name, which of its runs, and in what.
pub(crate) fn print_differing<P: Print>(
    rt: &P,
    case: &str,
    differing: &Differing<'_>,
) -> io::Result<()> {
    let variant = differing.variant;
    let again = if differing.is_second {
        ", again without failures"
    } else {
        ""
    };
    match &differing.failure {
        Some(failure) => println!(rt; "{case}{variant}, {failure}{again}:")?,
        None => println!(rt; "{case}{variant}{again}:")?,
    }
    for difference in differing.differences.iter() {
        println!(rt; "  {difference}")?;
    }
    Ok(())
}

/// How the cases of a file went.
pub(crate) fn print_file<P: Print>(rt: &P, name: &str, tally: Tally) -> io::Result<()> {
    let Tally { passed, failed } = tally;
    if failed == 0 {
        println!(rt; "{name}: {passed} passed")
    } else {
        println!(rt; "{name}: {passed} passed, {failed} failed")
    }
}

/// How all cases went.
pub(crate) fn print_all<P: Print>(rt: &P, tally: Tally) -> io::Result<()> {
    let Tally { passed, failed } = tally;
    println!(rt; "{passed} passed, {failed} failed")
}

impl fmt::Display for Variant<'_> {
    fn fmt<W: fmt::Write>(&self, f: &mut fmt::Formatter<W>) -> fmt::Result {
        if let Some(workers) = self.workers {
            write!(f, ", workers {workers}")?;
        }
        if let Some((name, length)) = self.prefix {
            write!(f, ", the first {length} bytes of {name}")?;
        }
        Ok(())
    }
}

impl fmt::Display for Failure {
    fn fmt<W: fmt::Write>(&self, f: &mut fmt::Formatter<W>) -> fmt::Result {
        match self {
            Failure::Open { name } => write!(f, "fail open {name}"),
            Failure::Len { name } => write!(f, "fail len {name}"),
            Failure::Read { name, index } => write!(f, "fail read {name} {index}"),
            Failure::At { name, place } => write!(f, "fail at {name} {place}"),
            Failure::Again { name, index } => write!(f, "fail again {name} {index}"),
            Failure::Create => write!(f, "fail create"),
            Failure::Append { index, kept } => write!(f, "fail append {index} {kept}"),
        }
    }
}

impl fmt::Display for Difference {
    fn fmt<W: fmt::Write>(&self, f: &mut fmt::Formatter<W>) -> fmt::Result {
        match self {
            Difference::Text { came, expected } => {
                let came = came.escape_ascii();
                let expected = expected.escape_ascii();
                write!(f, "said \"{came}\", expected \"{expected}\"")
            }
            Difference::Number { came, expected } => {
                write!(f, "ended with {came}, expected {expected}")
            }
            Difference::Extra { name, came } => {
                write!(f, "file {name}: {came} bytes, expected none")
            }
            Difference::Missing { name, expected } => {
                write!(f, "file {name}: not there, expected {expected} bytes")
            }
            Difference::Bytes {
                name,
                place,
                came,
                expected,
            } => write!(
                f,
                "file {name}: differs at byte {place}, {came} bytes, expected {expected}"
            ),
            Difference::Readers { given, returned } => {
                write!(f, "{given} readers were given, {returned} given back")
            }
        }
    }
}

/// How many cases gave what they expect, and how many didn't.
#[derive(Clone, Copy)]
pub(crate) struct Tally {
    pub(crate) passed: u64,
    pub(crate) failed: u64,
}

impl Tally {
    pub(crate) const NONE: Tally = Tally {
        passed: 0,
        failed: 0,
    };

    pub(crate) fn count(&mut self, passed: bool) {
        if passed {
            self.passed = self.passed.saturating_add(1);
        } else {
            self.failed = self.failed.saturating_add(1);
        }
    }

    pub(crate) fn add(&mut self, other: Tally) {
        self.passed = self.passed.saturating_add(other.passed);
        self.failed = self.failed.saturating_add(other.failed);
    }
}
