// A paper's bytes and a position in them, and what such a reader reads. What its methods do is done by functions on the bytes and the
// position.
ghost use Rattle.std.specs.Prelude.{◌≡◌, ◌∷◌, [], ◌+◌, ◌≤◌, ◌<◌, length, nat_le};
ghost use Rattle.ground.specs.Outcome.{read_of, verdict_of};
ghost use Rattle.fields.specs.Numbers.{bytes_wide, number_at, marked, mark_at};

use crate::numbers::Width;
use ground::refusals::{Reason, Refusal};

// "A small reader struct holding the paper's bytes and a position."
#[derive(Clone, Copy)]
pub struct Reader<'a> {
    pub bytes: &'a [u8],
    pub at: usize,
}

// Whether so many bytes stand from a position on.
fn reaches(s: &[u8], at: usize, n: usize) -> bool
    ensures { result ≡ nat_le (at + n) (length s.now) }
{
    at <= s.len() && n <= s.len() - at
}

// A number of one, two and four bytes, a line each: one function for any size would need a loop with a sum.
fn one_at(s: &[u8], at: usize) -> Result<(u32, usize), Refusal>
    ensures { result ≡ read_of (number_at 1 s.now at) }
{
    if !reaches(s, at, 1) {
        return Err(Reason::EndsInside.at(at));
    }
    Ok((s[at] as u32, at + 1))
}

fn two_at(s: &[u8], at: usize) -> Result<(u32, usize), Refusal>
    ensures { result ≡ read_of (number_at 2 s.now at) }
{
    if !reaches(s, at, 2) {
        return Err(Reason::EndsInside.at(at));
    }
    Ok((s[at] as u32 + 256 * s[at + 1] as u32, at + 2))
}

fn four_at(s: &[u8], at: usize) -> Result<(u32, usize), Refusal>
    ensures { result ≡ read_of (number_at 4 s.now at) }
{
    if !reaches(s, at, 4) {
        return Err(Reason::EndsInside.at(at));
    }
    let upper = s[at + 2] as u32 + 256 * s[at + 3] as u32;
    Ok((
        s[at] as u32 + 256 * (s[at + 1] as u32 + 256 * upper),
        at + 4,
    ))
}

// The three letters of a mark at a position.
fn is_marked(s: &[u8], at: usize, a: u8, b: u8, c: u8) -> bool
    requires { at + 3 ≤ length s.now }
    ensures { result ≡ marked (a ∷ b ∷ c ∷ []) s.now at }
{
    s[at] == a && s[at + 1] == b && s[at + 2] == c
}

impl<'a> Reader<'a> {
    // The number at the reader's position, with the position past it.
    pub(crate) fn number(self, width: Width) -> Result<(u32, usize), Refusal>
        ensures { result ≡ read_of (number_at (bytes_wide width) self.entry.bytes.now self.entry.at) }
    {
        match width {
            Width::One => one_at(self.bytes, self.at),
            Width::Two => two_at(self.bytes, self.at),
            Width::Four => four_at(self.bytes, self.at),
        }
    }

    // Whether a mark stands at the reader's position. A mark is one field: it must be whole before it is compared.
    pub(crate) fn mark(self, a: u8, b: u8, c: u8) -> Result<(), Refusal>
        ensures { result ≡ verdict_of (mark_at (a ∷ b ∷ c ∷ []) self.entry.bytes.now self.entry.at) }
    {
        if !reaches(self.bytes, self.at, 3) {
            return Err(Reason::EndsInside.at(self.at));
        }
        if !is_marked(self.bytes, self.at, a, b, c) {
            return Err(Reason::WrongMark.at(self.at));
        }
        Ok(())
    }

    // The reader with another position: past what was read.
    pub(crate) fn moved(self, at: usize) -> Reader<'a>
        ensures { (result.bytes ≡ self.entry.bytes) × (result.at ≡ at) }
    {
        Reader {
            bytes: self.bytes,
            at,
        }
    }
}
