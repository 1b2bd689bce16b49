// Outcomes as they go out: the answer as two words, and slices with their lengths.
ghost use Rattle.std.specs.Prelude.{◌≡◌, ◌≤◌, length};

use crate::input::{PART, PART_BYTES};
use std::io;
use std::io::Write;

fn put_word<W: Write>(outcomes: &mut W, word: u32) -> io::Result<()> {
    outcomes.write_all(&word.to_le_bytes())
}

// The number and the value of an answer.
pub(crate) fn put_answer<W: Write>(outcomes: &mut W, answer: u64) -> io::Result<()> {
    put_word(outcomes, (answer / 4294967296) as u32)?;
    put_word(outcomes, (answer % 4294967296) as u32)
}

// So many elements, one word each.
fn put_part<W: Write, T: Copy + Into<u32>>(outcomes: &mut W, part: &[T]) -> io::Result<()>
    requires { length part.now ≤ 1024 }
{
    let mut space = [0u8; PART_BYTES];
    for (bytes, element) in space.chunks_exact_mut(4).zip(part) {
        let word: u32 = (*element).into();
        bytes.copy_from_slice(&word.to_le_bytes());
    }
    outcomes.write_all(&space[..4 * part.len()])
}

// A slice of words or bytes with its length, one word each.
pub(crate) fn put_slice<W: Write, T: Copy + Into<u32>>(
    outcomes: &mut W,
    slice: &[T],
) -> io::Result<()> {
    put_word(outcomes, (slice.len() % 4294967296) as u32)?;
    for part in slice.chunks(PART) {
        put_part(outcomes, part)?;
    }
    Ok(())
}
