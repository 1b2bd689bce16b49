// The script as it comes in: numbers, and slices of words and bytes into lent buffers. What follows damage is not read.
ghost use Rattle.std.specs.Prelude.{◌≡◌, ◌≤◌, length, IfOk};

use std::convert::TryFrom;
use std::io;
use std::io::Read;
use std::num::TryFromIntError;

// A slice has no more elements than this.
pub(crate) const MOST: usize = 40960;

// So many elements are read, or written, at a time: so many bytes.
pub(crate) const PART: usize = 1024;

pub(crate) const PART_BYTES: usize = 4096;

// Why a script stops: it is damaged, or the system failed.
#[derive(Drop)]
pub(crate) enum Stop {
    Damaged,
    Failed(io::Error),
}

impl From<io::Error> for Stop {
    fn from(error: io::Error) -> Stop {
        Stop::Failed(error)
    }
}

// Reads until the buffer is full or the input ends: how many bytes stand at its front then, which `read_exact` does not say.
fn read_full<R: Read>(script: &mut R, buffer: &mut [u8]) -> io::Result<usize>
    ensures { IfOk result (λ n. n ≤ length buffer.new) }
{
    let mut done: usize = 0;
    while done < buffer.len() {
        let n = script.read(&mut buffer[done..])?;
        if n == 0 {
            break;
        }
        done += n;
    }
    Ok(done)
}

// A word, if the input does not end before it.
pub(crate) fn next_word<R: Read>(script: &mut R) -> Result<Option<u32>, Stop> {
    let mut bytes = [0u8; 4];
    match read_full(script, &mut bytes)? {
        0 => Ok(None),
        4 => Ok(Some(u32::from_le_bytes(bytes))),
        _ => Err(Stop::Damaged),
    }
}

// A number inside a call: there the input must not end.
pub(crate) fn next_number<R: Read>(script: &mut R) -> Result<u32, Stop> {
    next_word(script)?.ok_or(Stop::Damaged)
}

// The length of a slice that fits into so much room.
fn next_length<R: Read>(script: &mut R, room: usize) -> Result<usize, Stop>
    ensures { IfOk result (λ n. (n ≤ room) × (n ≤ 40960)) }
{
    let length = next_number(script)? as usize;
    if MOST < length || room < length {
        return Err(Stop::Damaged);
    }
    Ok(length)
}

// Elements of words: damaged where a word is none.
fn take_part<T: Copy + TryFrom<u32, Error = TryFromIntError>>(
    words: &[[u8; 4]],
    part: &mut [T],
) -> Result<(), Stop> {
    for (element, word) in part.iter_mut().zip(words) {
        *element = T::try_from(u32::from_le_bytes(*word)).or(Err(Stop::Damaged))?;
    }
    Ok(())
}

// So many elements, one word each.
fn next_part<R: Read, T: Copy + TryFrom<u32, Error = TryFromIntError>>(
    script: &mut R,
    part: &mut [T],
) -> Result<(), Stop>
    requires { length part.old ≤ 1024 }
{
    let mut space = [0u8; PART_BYTES];
    let bytes = &mut space[..4 * part.len()];
    if read_full(script, bytes)? < bytes.len() {
        return Err(Stop::Damaged);
    }
    take_part(bytes.as_chunks().0, part)
}

// A slice, at the front of a buffer: words, or bytes of one word each.
pub(crate) fn next_slice<'a, R: Read, T: Copy + TryFrom<u32, Error = TryFromIntError>>(
    script: &mut R,
    buffer: &'a mut [T],
) -> Result<&'a mut [T], Stop>
    ensures { IfOk result (λ s. length s.now ≤ length buffer.old) }
{
    let length = next_length(script, buffer.len())?;
    let slice = &mut buffer[..length];
    for part in slice.chunks_mut(PART) {
        next_part(script, part)?;
    }
    Ok(slice)
}
