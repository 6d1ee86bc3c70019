// Notes in memory, and the gate that holds nobody.
use super::calls::first_false;
use std::alloc::Global;
use world::{Gate, MemNotes, Notes, OpenGate};

fn says(alloc: Global, notes: &mut MemNotes, piece: &[u8]) -> bool {
    notes.say(alloc, piece).is_ok()
}

fn has_text(notes: &MemNotes, text: &[u8]) -> bool {
    notes.text() == text
}

#[test]
fn notes_one_after_the_other(rt: HostRuntime) {
    let alloc = rt.alloc();
    let mut notes = MemNotes::new(alloc);
    let seen = [
        has_text(&notes, b""),
        says(alloc, &mut notes, b"one"),
        says(alloc, &mut notes, b""),
        says(alloc, &mut notes, b" two"),
        has_text(&notes, b"one two"),
    ];
    assert_eq!(rt; first_false(&seen), None);
}

#[test]
fn the_open_gate_lets_all_pass() {
    OpenGate.before(0, 0);
    OpenGate.before(u32::MAX, u64::MAX);
}
