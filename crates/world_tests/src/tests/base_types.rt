// Lists of truth values and of bytes, and texts.
use super::calls::first_false;
use std::alloc::Global;
use sub_types::{Bits, ByteList, NoMemory, Word};

const T: bool = true;

const F: bool = false;

// Whether these are the truth values.
fn are(bits: &Bits, want: &[bool]) -> bool {
    if bits.len() != want.len() {
        return false;
    }
    for i in 0..want.len() {
        if bits.get(i) != want[i] {
            return false;
        }
    }
    true
}

// A list of these truth values.
fn bits_of(alloc: Global, values: &[bool]) -> Result<Bits, NoMemory> {
    let mut bits = Bits::new(alloc);
    for value in values {
        bits.push(*value)?;
    }
    Ok(bits)
}

// Sets a value that is there.
fn puts(bits: &mut Bits, place: usize, value: bool) -> bool {
    if place >= bits.len() {
        return false;
    }
    bits.put(place, value);
    true
}

fn pushes(bits: &mut Bits, value: bool) -> bool {
    bits.push(value).is_ok()
}

fn is_cut(bits: &mut Bits, len: usize) -> bool {
    bits.truncate(len);
    true
}

// Adds the values of a part that is there.
fn appends(bits: &mut Bits, more: &Bits, from: usize, to: usize) -> bool {
    from <= to && to <= more.len() && bits.append(more, from, to).is_ok()
}

// 1 + 4 + 8 + 64, and in the second byte nothing is said past the two.
fn is_packed(bits: &Bits) -> bool {
    match bits.bytes() {
        [first, second] => *first == 77 && *second & 3 == 1,
        _ => false,
    }
}

#[test]
fn truth_values_are_packed_least_bit_first(rt: HostRuntime) {
    let Ok(mut bits) = bits_of(rt.alloc(), &[T, F, T, T, F, F, T, F, T, F]) else {
        assert!(rt; false, "no memory");
        return;
    };
    let seen = [
        Bits::new(rt.alloc()).is_empty(),
        are(&bits, &[T, F, T, T, F, F, T, F, T, F]),
        is_packed(&bits),
        puts(&mut bits, 1, T),
        puts(&mut bits, 8, F),
        are(&bits, &[T, T, T, T, F, F, T, F, F, F]),
    ];
    assert_eq!(rt; first_false(&seen), None);
}

// 0xA5 is 1 + 4 + 32 + 128; of the second byte only the least bit counts.
fn from_packed(alloc: Global) -> Result<Bits, NoMemory> {
    Ok(Bits::from_packed(vec![in alloc; 0xA5, 0xFF]?, 9))
}

#[test]
fn truth_values_from_packed_bytes(rt: HostRuntime) {
    let Ok(mut bits) = from_packed(rt.alloc()) else {
        assert!(rt; false, "no memory");
        return;
    };
    let seen = [
        are(&bits, &[T, F, T, F, F, T, F, T, T]),
        // What stood past the last is not what comes next.
        pushes(&mut bits, F),
        are(&bits, &[T, F, T, F, F, T, F, T, T, F]),
    ];
    assert_eq!(rt; first_false(&seen), None);
}

// Whether so many zeros are so many times false.
fn are_zeros(alloc: Global) -> bool {
    match Bits::zeros(alloc, 3) {
        Ok(zeros) => are(&zeros, &[F, F, F]),
        Err(_) => false,
    }
}

#[test]
fn truth_values_cut_and_joined(rt: HostRuntime) {
    let bits = bits_of(rt.alloc(), &[T, T, T, T, T, T, T, T, T]);
    let more = bits_of(rt.alloc(), &[T, F, F, T, F, T]);
    let (Ok(mut bits), Ok(more)) = (bits, more) else {
        assert!(rt; false, "no memory");
        return;
    };
    let seen = [
        is_cut(&mut bits, 100),
        bits.len() == 9,
        is_cut(&mut bits, 6),
        appends(&mut bits, &more, 1, 5),
        are(&bits, &[T, T, T, T, T, T, F, F, T, F]),
        appends(&mut bits, &more, 3, 3),
        bits.len() == 10,
        are_zeros(rt.alloc()),
    ];
    assert_eq!(rt; first_false(&seen), None);
}

// Whether a list and its copy are these bytes.
fn is_copied(alloc: Global, bytes: &[u8]) -> Result<bool, NoMemory> {
    let list = ByteList::of(alloc, bytes)?;
    let copy = list.copy()?;
    Ok(
        list.len() == bytes.len()
            && list.is_empty() == bytes.is_empty()
            && copy.bytes() == bytes
            && list.into_vec().as_slice() == bytes,
    )
}

// Whether a text and its copy are this text.
fn is_text(alloc: Global, text: &str) -> Result<bool, NoMemory> {
    let word = Word::of(alloc, text)?;
    let copy = word.copy()?;
    Ok(word.text() == text && copy.text() == text)
}

#[test]
fn lists_of_bytes_and_texts(rt: HostRuntime) {
    let seen = [
        is_copied(rt.alloc(), &[0, 255, 7]) == Ok(true),
        is_copied(rt.alloc(), &[]) == Ok(true),
        ByteList::from_vec(Vec::new(rt.alloc())).is_empty(),
        is_text(rt.alloc(), "größer") == Ok(true),
        is_text(rt.alloc(), "") == Ok(true),
    ];
    assert_eq!(rt; first_false(&seen), None);
}
