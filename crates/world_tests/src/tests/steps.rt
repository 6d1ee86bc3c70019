// Tests as tables: what is done with a folder in memory and its readers, one step after the other, and what each step is to
// give.
use super::calls::*;
use std::alloc::Global;
use world::{MemFolder, MemReader};

/// One of the readers of a test.
#[derive(Clone, Copy)]
pub(super) enum Seat {
    First,
    Second,
    Third,
}

/// A call of the folder, and what it is to give.
#[derive(Clone, Copy)]
pub(super) enum Step {
    Plans(Failure),
    Clears,
    Puts(&'static str, &'static [u8]),
    Holds(&'static str, &'static [u8]),
    Lacks(&'static str),
    Tells(&'static [(u64, u64)]),
    /// The reader is from here on one of the named file.
    Takes(Seat, &'static str),
    Opens(&'static str),
    FindsNone(&'static str),
    FailsToOpen(&'static str),
    GivesBack(Seat),
    Creates(&'static str),
    FailsToCreate(&'static str),
    Appends(&'static str, &'static [u8]),
    FailsToAppend(&'static str, &'static [u8]),
    Reader(Seat, Call),
}

/// A call of a reader, and what it is to give.
#[derive(Clone, Copy)]
pub(super) enum Call {
    Reads(u64, &'static [u8; 4]),
    FailsToRead(u64),
    HasLength(u64),
    FailsToTellItsLength,
    /// The other reader is from here on a second one of the same file.
    Seconds(Seat),
    HasSecond,
    FailsToOpenASecond,
    Absorbs(Seat),
    WasAsked(&'static [(u64, u64)]),
}

#[derive(Drop)]
struct Readers {
    first: Option<MemReader>,
    second: Option<MemReader>,
    third: Option<MemReader>,
}

impl Readers {
    fn at(&mut self, seat: Seat) -> &mut Option<MemReader> {
        match seat {
            Seat::First => &mut self.first,
            Seat::Second => &mut self.second,
            Seat::Third => &mut self.third,
        }
    }
}

// Sets a reader.
fn seats(readers: &mut Readers, seat: Seat, reader: Option<MemReader>) -> bool {
    *readers.at(seat) = reader;
    true
}

fn is_met_by_reader(alloc: Global, readers: &mut Readers, seat: Seat, call: Call) -> bool {
    match call {
        Call::Reads(at, want) => reads(alloc, readers.at(seat), at, want),
        Call::FailsToRead(at) => fails_to_read(alloc, readers.at(seat), at),
        Call::HasLength(want) => has_length(readers.at(seat), want),
        Call::FailsToTellItsLength => fails_to_tell_its_length(readers.at(seat)),
        Call::Seconds(other) => {
            let reader = second(alloc, readers.at(seat));
            seats(readers, other, reader)
        }
        Call::HasSecond => second(alloc, readers.at(seat)).is_some(),
        Call::FailsToOpenASecond => fails_to_open_a_second(alloc, readers.at(seat)),
        Call::Absorbs(other) => {
            let other = readers.at(other).take();
            absorbs(alloc, readers.at(seat), other)
        }
        Call::WasAsked(want) => was_asked(readers.at(seat), want),
    }
}

fn is_met(alloc: Global, folder: &mut MemFolder, readers: &mut Readers, step: Step) -> bool {
    match step {
        Step::Plans(failure) => plans(folder, failure),
        Step::Clears => clears(folder),
        Step::Puts(name, bytes) => puts(folder, name, bytes),
        Step::Holds(name, bytes) => holds(folder, name, bytes),
        Step::Lacks(name) => lacks(folder, name),
        Step::Tells(want) => tells(folder, want),
        Step::Takes(seat, name) => seats(readers, seat, opened(alloc, folder, name)),
        Step::Opens(name) => opens(alloc, folder, name),
        Step::FindsNone(name) => finds_none(alloc, folder, name),
        Step::FailsToOpen(name) => fails_to_open(alloc, folder, name),
        Step::GivesBack(seat) => gives_back(alloc, folder, readers.at(seat).take()),
        Step::Creates(name) => creates(alloc, folder, name),
        Step::FailsToCreate(name) => fails_to_create(alloc, folder, name),
        Step::Appends(name, piece) => appends(alloc, folder, name, piece),
        Step::FailsToAppend(name, piece) => fails_to_append(alloc, folder, name, piece),
        Step::Reader(seat, call) => is_met_by_reader(alloc, readers, seat, call),
    }
}

fn first_unmet_in(
    alloc: Global,
    folder: &mut MemFolder,
    readers: &mut Readers,
    steps: &[Step],
) -> Option<usize> {
    for (i, step) in steps.iter().enumerate() {
        if !is_met(alloc, folder, readers, *step) {
            return Some(i);
        }
    }
    None
}

/// The first step of a folder of these files that gives something else, if one does.
pub(super) fn first_unmet(alloc: Global, files: &[(&str, &[u8])], steps: &[Step]) -> Option<usize> {
    let mut folder = folder_of(alloc, files);
    let mut readers = Readers {
        first: None,
        second: None,
        third: None,
    };
    first_unmet_in(alloc, &mut folder, &mut readers, steps)
}
