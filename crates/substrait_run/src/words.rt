// The words of the command line.
use std::alloc::Global;
use std::env::{Env, FillError};
use std::str;
use sub_types::{NoMemory, Word};

/// The words after the program's own name. One that isn't UTF-8 is the empty word, which no command accepts.
pub(crate) fn words_of<E: Env>(env: &E, alloc: Global) -> Result<Vec<Word>, NoMemory> {
    let mut words = Vec::new(alloc);
    for index in 1..usize::MAX {
        let Some(word) = word_at(env, alloc, index)? else {
            break;
        };
        words.push(word)?;
    }
    Ok(words)
}

// The word, or `None` behind the last.
fn word_at<E: Env>(env: &E, alloc: Global, index: usize) -> Result<Option<Word>, NoMemory> {
    let mut size = 256;
    for _ in 0..usize::BITS {
        let mut bytes = vec![in alloc; 0u8; size]?;
        match env.arg(index, &mut bytes) {
            Ok(len) => {
                let text = str::from_utf8(&bytes[..len]).unwrap_or("");
                return Ok(Some(Word::of(alloc, text)?));
            }
            Err(FillError::NotPresent) => return Ok(None),
            Err(FillError::TooLong) => size = size.saturating_mul(2),
        }
    }
    Err(NoMemory)
}
