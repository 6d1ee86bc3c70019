// A case, and how it is read from the lines of a cases file.
use hex::{FromHexError, decode};
use std::alloc::{AllocError, Global};
use std::num::ParseIntError;
use sub_types::{NoMemory, Word};
use thiserror::Error;

/// A run of a command, and what it must say, end with and leave.
#[derive(Drop)]
pub(crate) struct Case {
    pub(crate) name: String,
    pub(crate) words: Vec<Word>,
    /// The files of the folder at the start.
    pub(crate) files: Vec<NamedFile>,
    /// What is said, each line with its end.
    pub(crate) text: Vec<u8>,
    /// The number that the program ends with.
    pub(crate) status: u8,
    /// The files that are written; all others must be as before.
    pub(crate) outs: Vec<NamedFile>,
    /// What stands in the place of the number of workers, a run each; none: the words as they are.
    pub(crate) workers: Vec<Word>,
    pub(crate) prefixes: Option<Prefixes>,
    /// What fails. The run is then tried again with no failures.
    pub(crate) failures: Vec<Failure>,
    /// The files whose calls fail one after the other, a run each, and so do the calls that write; none: no such runs.
    pub(crate) each: Vec<String>,
}

/// A file by its name.
#[derive(Drop)]
pub(crate) struct NamedFile {
    pub(crate) name: String,
    pub(crate) bytes: Vec<u8>,
}

/// A file whose proper prefixes stand in its place, a run each, from this length on.
#[derive(Drop)]
pub(crate) struct Prefixes {
    pub(crate) name: String,
    pub(crate) shortest: usize,
}

/// A call of the folder or of a reader that fails. Calls are counted from 0.
#[derive(Drop)]
pub(crate) enum Failure {
    /// The opening of the file.
    Open { name: String },
    /// The file's length.
    Len { name: String },
    /// One read of each of the file's readers.
    Read { name: String, index: u32 },
    /// Each read of the file that begins at this place.
    At { name: String, place: u64 },
    /// The opening of a second reader from a reader of the file.
    Again { name: String, index: u32 },
    /// The creation of a file.
    Create,
    /// One append, which keeps so many bytes of its piece.
    Append { index: u32, kept: u32 },
}

impl Failure {
    /// Whether it is one of a call that writes.
    pub(crate) fn is_of_writing(&self) -> bool {
        matches!(self, Failure::Create | Failure::Append { .. })
    }
}

/// A line that isn't one of a case.
#[derive(Debug, Drop, Error)]
#[error("line {number}: {fault}")]
pub(crate) struct FaultyLine {
    /// Lines are counted from 1. What a case lacks is a fault of its first line.
    pub(crate) number: usize,
    pub(crate) fault: LineFault,
}

/// Why a line isn't one of a case.
#[derive(Debug, Drop, Error)]
pub(crate) enum LineFault {
    #[error("unknown keyword")]
    UnknownKeyword,
    #[error("no case is begun")]
    OutsideOfCase,
    #[error("the case before isn't ended by an empty line")]
    InsideOfCase,
    #[error("the case has one already")]
    Repeated,
    #[error("bad hex")]
    BadHex,
    #[error("bad number")]
    BadNumber(#[from] ParseIntError),
    #[error("unknown failure")]
    UnknownFailure,
    #[error("the case has no name")]
    NoName,
    #[error("the case has no words")]
    NoWords,
    #[error("the case has no line")]
    NoLine,
    #[error("the case has no status")]
    NoStatus,
    #[error("no word is a number of workers")]
    NoWorkers,
    #[error("no file has such a prefix")]
    NoPrefix,
    #[error("no memory")]
    NoMemory(#[from(alloc)] AllocError),
}

impl From<NoMemory> for LineFault {
    fn from(_: NoMemory) -> Self {
        LineFault::NoMemory(AllocError)
    }
}

impl From<FromHexError> for LineFault {
    fn from(error: FromHexError) -> Self {
        match error {
            FromHexError::OutOfMemory => LineFault::NoMemory(AllocError),
            _ => LineFault::BadHex,
        }
    }
}

/// The cases of a text, in order.
pub(crate) fn read_cases(alloc: Global, text: &str) -> Result<Vec<Case>, FaultyLine> {
    let mut reader = CasesReader {
        alloc,
        cases: Vec::new(alloc),
        draft: None,
    };
    for (index, line) in text.lines().enumerate() {
        let number = index.saturating_add(1);
        if line.is_empty() {
            reader.end_case()?;
        } else if let Err(fault) = reader.take_line(number, line) {
            return Err(FaultyLine { number, fault });
        }
    }
    reader.end_case()?;
    Ok(reader.cases)
}

// The cases so far, and the one that hasn't ended yet.
#[derive(Drop)]
struct CasesReader {
    alloc: Global,
    cases: Vec<Case>,
    draft: Option<Draft>,
}

impl CasesReader {
    // A line with a keyword.
    fn take_line(&mut self, number: usize, line: &str) -> Result<(), LineFault> {
        let (keyword, rest) = line.split_once(' ').unwrap_or((line, ""));
        match &mut self.draft {
            None if keyword == "case" => {
                self.draft = Some(Draft::new(self.alloc, number, rest)?);
                Ok(())
            }
            None => Err(LineFault::OutsideOfCase),
            Some(draft) => draft.take_line(self.alloc, keyword, rest),
        }
    }

    // An empty line, or the end of the text.
    fn end_case(&mut self) -> Result<(), FaultyLine> {
        let Some(draft) = self.draft.take() else {
            return Ok(());
        };
        let number = draft.number;
        match draft.case().and_then(|case| Ok(self.cases.push(case)?)) {
            Ok(()) => Ok(()),
            Err(fault) => Err(FaultyLine { number, fault }),
        }
    }
}

// A case whose lines are still being read.
#[derive(Drop)]
struct Draft {
    // The number of its first line.
    number: usize,
    case: Case,
    has_words: bool,
    has_status: bool,
}

impl Draft {
    fn new(alloc: Global, number: usize, name: &str) -> Result<Draft, LineFault> {
        if name.is_empty() {
            return Err(LineFault::NoName);
        }
        Ok(Draft {
            number,
            case: Case {
                name: String::from_str(alloc, name)?,
                words: Vec::new(alloc),
                files: Vec::new(alloc),
                text: Vec::new(alloc),
                status: 0,
                outs: Vec::new(alloc),
                workers: Vec::new(alloc),
                prefixes: None,
                failures: Vec::new(alloc),
                each: Vec::new(alloc),
            },
            has_words: false,
            has_status: false,
        })
    }

    // A further line of the case.
    fn take_line(&mut self, alloc: Global, keyword: &str, rest: &str) -> Result<(), LineFault> {
        match keyword {
            "case" => Err(LineFault::InsideOfCase),
            "words" => self.take_words(alloc, rest),
            "file" => add_file(alloc, &mut self.case.files, rest),
            "line" => self.take_text(rest),
            "status" => self.take_status(rest),
            "out" => add_file(alloc, &mut self.case.outs, rest),
            "workers" => self.take_workers(alloc, rest),
            "prefixes" => self.take_prefixes(alloc, rest),
            "fail" => self.take_failure(alloc, rest),
            _ => Err(LineFault::UnknownKeyword),
        }
    }

    fn take_words(&mut self, alloc: Global, rest: &str) -> Result<(), LineFault> {
        if self.has_words {
            return Err(LineFault::Repeated);
        }
        self.has_words = true;
        self.case.words = words_of(alloc, rest)?;
        Ok(())
    }

    fn take_text(&mut self, rest: &str) -> Result<(), LineFault> {
        self.case.text.extend_from_slice(rest.as_bytes())?;
        self.case.text.push(b'\n')?;
        Ok(())
    }

    fn take_status(&mut self, rest: &str) -> Result<(), LineFault> {
        if self.has_status {
            return Err(LineFault::Repeated);
        }
        self.has_status = true;
        self.case.status = rest.parse()?;
        Ok(())
    }

    fn take_workers(&mut self, alloc: Global, rest: &str) -> Result<(), LineFault> {
        if !self.case.workers.is_empty() {
            return Err(LineFault::Repeated);
        }
        self.case.workers = words_of(alloc, rest)?;
        if self.case.workers.is_empty() {
            return Err(LineFault::NoWorkers);
        }
        Ok(())
    }

    fn take_prefixes(&mut self, alloc: Global, rest: &str) -> Result<(), LineFault> {
        if self.case.prefixes.is_some() {
            return Err(LineFault::Repeated);
        }
        let (name, shortest) = rest.split_once(' ').unwrap_or((rest, "0"));
        self.case.prefixes = Some(Prefixes {
            name: String::from_str(alloc, name)?,
            shortest: shortest.parse()?,
        });
        Ok(())
    }

    // One failure, or the files whose calls fail one after the other.
    fn take_failure(&mut self, alloc: Global, rest: &str) -> Result<(), LineFault> {
        match rest.strip_prefix("each ") {
            Some(names) => self.take_each(alloc, names),
            None => Ok(self.case.failures.push(failure_of(alloc, rest)?)?),
        }
    }

    fn take_each(&mut self, alloc: Global, names: &str) -> Result<(), LineFault> {
        if !self.case.each.is_empty() {
            return Err(LineFault::Repeated);
        }
        for name in names.split(' ') {
            self.case.each.push(String::from_str(alloc, name)?)?;
        }
        Ok(())
    }

    // The case, whose last line was read.
    fn case(self) -> Result<Case, LineFault> {
        match self.fault() {
            Some(fault) => Err(fault),
            None => Ok(self.case),
        }
    }

    // What the case lacks, if it lacks something.
    fn fault(&self) -> Option<LineFault> {
        let case = &self.case;
        if !self.has_words {
            Some(LineFault::NoWords)
        } else if case.text.is_empty() {
            Some(LineFault::NoLine)
        } else if !self.has_status {
            Some(LineFault::NoStatus)
        } else if !case.workers.is_empty() && case.workers_place().is_none() {
            Some(LineFault::NoWorkers)
        } else if !case.each.is_empty() && !case.failures.is_empty() {
            Some(LineFault::Repeated)
        } else if !case.has_prefix() {
            Some(LineFault::NoPrefix)
        } else {
            None
        }
    }
}

impl Case {
    /// Where the number of workers stands among the words, or `None` where the command has none.
    pub(crate) fn workers_place(&self) -> Option<usize> {
        let place = match self.words.first()?.text() {
            "run" => 3,
            "demo" => 2,
            "many" => 1,
            _ => return None,
        };
        (place < self.words.len()).then_some(place)
    }

    /// The length of the named file, or 0 where it isn't one of the case.
    pub(crate) fn length_of(&self, name: &str) -> usize {
        file_of(&self.files, name).map_or(0, |file| file.bytes.len())
    }

    // Where prefixes are wanted, there is one.
    fn has_prefix(&self) -> bool {
        match &self.prefixes {
            None => true,
            Some(prefixes) => prefixes.shortest < self.length_of(prefixes.name.as_str()),
        }
    }
}

// The file of that name, or `None`.
fn file_of<'a>(files: &'a [NamedFile], name: &str) -> Option<&'a NamedFile> {
    files.iter().find(|file| file.name.as_str() == name)
}

// Words between single spaces; `""` is the empty word.
fn words_of(alloc: Global, rest: &str) -> Result<Vec<Word>, LineFault> {
    let mut words = Vec::new(alloc);
    if rest.is_empty() {
        return Ok(words);
    }
    for text in rest.split(' ') {
        let text = if text == "\"\"" { "" } else { text };
        words.push(Word::of(alloc, text)?)?;
    }
    Ok(words)
}

// A name, and behind it the bytes in hex, or nothing for an empty file.
fn add_file(alloc: Global, files: &mut Vec<NamedFile>, rest: &str) -> Result<(), LineFault> {
    let (name, digits) = rest.split_once(' ').unwrap_or((rest, ""));
    if file_of(files, name).is_some() {
        return Err(LineFault::Repeated);
    }
    files.push(NamedFile {
        name: String::from_str(alloc, name)?,
        bytes: decode(alloc, digits)?,
    })?;
    Ok(())
}

// A failure by its words.
fn failure_of(alloc: Global, rest: &str) -> Result<Failure, LineFault> {
    let texts = rest.split(' ').collect::<Vec<&str>>(alloc)?;
    match texts.as_slice() {
        ["open", name] => Ok(Failure::Open {
            name: String::from_str(alloc, name)?,
        }),
        ["len", name] => Ok(Failure::Len {
            name: String::from_str(alloc, name)?,
        }),
        ["create"] => Ok(Failure::Create),
        ["append", index, kept] => append_failure(index, kept),
        [call, name, number] => numbered_failure(alloc, call, name, number),
        _ => Err(LineFault::UnknownFailure),
    }
}

fn append_failure(index: &str, kept: &str) -> Result<Failure, LineFault> {
    Ok(Failure::Append {
        index: index.parse()?,
        kept: kept.parse()?,
    })
}

// A failure of a call of a file, with the number that tells which.
fn numbered_failure(
    alloc: Global,
    call: &str,
    name: &str,
    number: &str,
) -> Result<Failure, LineFault> {
    let name = String::from_str(alloc, name)?;
    match call {
        "read" => Ok(Failure::Read {
            index: number.parse()?,
            name,
        }),
        "at" => Ok(Failure::At {
            place: number.parse()?,
            name,
        }),
        "again" => Ok(Failure::Again {
            index: number.parse()?,
            name,
        }),
        _ => Err(LineFault::UnknownFailure),
    }
}
