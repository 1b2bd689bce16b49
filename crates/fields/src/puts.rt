// Numbers put into a lent buffer, little end first, the parts of a paper put one behind the other, and bytes written to the front of one.
ghost use Rattle.std.specs.Prelude.{◌≡◌, ℕ, ◌+◌, ◌*◌, List, [], ◌∷◌, ◌++◌, length, set};
ghost use Rattle.ground.specs.Lists.{each};
ghost use Rattle.std.proofs.lemmas.List.Edits.{sets};
ghost use Rattle.ground.specs.Bytes.{bytes_of};
ghost use Rattle.fields.specs.Numbers.{bytes_wide};
ghost use Rattle.fields.specs.Puts.{fitted, written_of, written_in, PutsAnywhere, Fronts};

use crate::numbers::Width;
use ground::refusals::{Reason, Refusal};

// One byte, where the buffer goes that far.
fn put_byte(out: &mut [u8], at: usize, value: u8)
    ensures { out.new ≡ set out.old at value }
{
    if at < out.len() {
        out[at] = value;
    }
}

// Each size in a line or two of its own: one function for any size would need a loop.
fn put_two(out: &mut [u8], at: usize, value: u32)
    ensures { out.new ≡ sets out.old at (bytes_of 2 value) }
{
    if out.len() <= at {
        return;
    }
    put_byte(out, at, (value % 256) as u8);
    put_byte(out, at + 1, (value / 256 % 256) as u8);
}

// The bytes of a number from at on, as far as the buffer goes.
pub fn put_number(out: &mut [u8], at: usize, width: Width, value: u32)
    ensures { out.new ≡ sets out.old at (bytes_of (bytes_wide width) value) }
{
    if out.len() <= at {
        return;
    }
    match width {
        Width::One => put_byte(out, at, (value % 256) as u8),
        Width::Two => put_two(out, at, value),
        Width::Four => {
            put_two(out, at, value);
            put_two(out, at + 2, value / 256 / 256);
        }
    }
}

// A part of a paper: its bytes, and how many they are at most. It is put at any position, as far as the buffer goes, and answers the
// position past it, or the greatest number where the position is greater.
pub trait Part: Copy {
    ghost bytes: { Self → List ℕ };

    ghost most: { ℕ };

    fn put(self, out: &mut [u8], at: usize) -> usize
        ensures { PutsAnywhere out.old at most (bytes self) result out.new };
}

impl Part for u8 {
    ghost bytes = { bytes_of 1 };

    ghost most = { 1 };

    fn put(self, out: &mut [u8], at: usize) -> usize {
        put_number(out, at, Width::One, self as u32);
        at.saturating_add(1)
    }
}

impl Part for u32 {
    ghost bytes = { bytes_of 4 };

    ghost most = { 4 };

    fn put(self, out: &mut [u8], at: usize) -> usize {
        put_number(out, at, Width::Four, self);
        at.saturating_add(4)
    }
}

// Parts of a kind, one behind the other.
pub fn put_all<P: Part>(out: &mut [u8], at: usize, parts: &[P]) -> usize
    ensures { PutsAnywhere out.old at (P.most * length parts.now) (each P.bytes parts.now) result out.new }
{
    let mut end = at;
    for part in parts {
        end = part.put(out, end);
    }
    end
}

// Their count of one byte, and they.
pub fn put_list<P: Part>(out: &mut [u8], at: usize, count: u8, parts: &[P]) -> usize
    ensures { PutsAnywhere out.old at (1 + P.most * length parts.now) (bytes_of 1 count ++ each P.bytes parts.now) result out.new }
{
    let next = count.put(out, at);
    put_all(out, next, parts)
}

// The letters of a mark and a version, at the front.
pub fn put_head(out: &mut [u8], a: u8, b: u8, c: u8, version: u16) -> usize
    ensures { Fronts out.old 5 ((a ∷ b ∷ c ∷ []) ++ bytes_of 2 version) result out.new }
{
    put_byte(out, 0, a);
    put_byte(out, 1, b);
    put_byte(out, 2, c);
    put_number(out, 3, Width::Two, version as u32);
    5
}

// Bytes written to the front of a buffer, and their length; or 11 where they do not fit, and then nothing is written.
pub fn write_front(bytes: &[u8], out: &mut [u8]) -> Result<usize, Refusal>
    ensures { (result ≡ written_of (fitted (length out.old) bytes.now)) × (out.new ≡ written_in out.old (fitted (length out.old) bytes.now)) }
{
    if out.len() < bytes.len() {
        return Err(Reason::TooShort.at(0));
    }
    out[..bytes.len()].copy_from_slice(bytes);
    Ok(bytes.len())
}
