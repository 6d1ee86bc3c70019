// A text that is longer than one may be.
use super::answered::{Answered, put, put_repeated, run_words};
use super::files::{LONG_TEXT_HEAD, LONG_TEXT_TAIL};
use super::plans::TEXT_X_OF_T;
use run_top::exit_number;
use sub_types::NoMemory;
use world::MemFolder;

fn is_too_long(answered: Result<Answered, NoMemory>) -> bool {
    let line = b"data fault: relation 0: TextTooLong\n".as_slice();
    match answered {
        Ok(answered) => exit_number(&answered.status) == 6 && answered.line.as_slice() == line,
        Err(_) => false,
    }
}

#[test]
fn a_text_that_is_too_long(rt: HostRuntime) {
    let alloc = rt.alloc();
    let mut folder = MemFolder::new(alloc);
    put(alloc, &mut folder, "p", TEXT_X_OF_T);
    let long = (LONG_TEXT_HEAD, "61", LONG_TEXT_TAIL);
    put_repeated(alloc, &mut folder, "f", long, 1_048_577);
    let answered = run_words(&rt, alloc, &mut folder, &["run", "p", "o", "3", "t=f"]);
    assert!(rt; is_too_long(answered));
    assert!(rt; folder.file("o").is_none());
}
