// Numbers at a position of a paper, little end first, and the mark and version at its front.
ghost use Rattle.std.specs.Prelude.{◌≡◌, ◌∷◌, []};
ghost use Rattle.ground.specs.Outcome.{read_of};
ghost use Rattle.fields.specs.Numbers.{bytes_wide, number_at, number_in, number_below, head_of};

use crate::reader::Reader;
use ground::refusals::{Reason, Refusal};

// Where the version starts: behind the three letters of the mark.
const BEHIND_MARK: usize = 3;

// How many bytes a number has.
#[derive(Clone, Copy)]
pub enum Width {
    One,
    Two,
    Four,
}

// A number, whatever it is: a reader is made, and reads it. So every number of a paper is read by a reader.
pub fn number_at(s: &[u8], at: usize, width: Width) -> Result<(u32, usize), Refusal>
    ensures { result ≡ read_of (number_at (bytes_wide width) s.now at) }
{
    Reader { bytes: s, at }.number(width)
}

// A number from low to high.
pub fn number_in(
    s: &[u8],
    at: usize,
    width: Width,
    low: u32,
    high: u32,
) -> Result<(u32, usize), Refusal>
    ensures { result ≡ read_of (number_in (bytes_wide width) low high s.now at) }
{
    let (value, next) = number_at(s, at, width)?;
    if value < low || high < value {
        return Err(Reason::BeyondLimit.at(at));
    }
    Ok((value, next))
}

// A number below a limit: one that names something. It is a `?` and a test, as that above is, by a definition of its own.
pub fn number_below(s: &[u8], at: usize, width: Width, limit: u32) -> Result<(u32, usize), Refusal>
    ensures { result ≡ read_of (number_below (bytes_wide width) limit s.now at) }
{
    let (value, next) = number_at(s, at, width)?;
    if limit <= value {
        return Err(Reason::BeyondLimit.at(at));
    }
    Ok((value, next))
}

// The mark, then a version from 1 to the newest that is taken, with the position past it. One reader looks at the mark, is moved
// past it, and reads the version.
pub fn read_head(s: &[u8], a: u8, b: u8, c: u8, newest: u32) -> Result<(u32, usize), Refusal>
    ensures { result ≡ read_of (head_of (a ∷ b ∷ c ∷ []) newest s.now) }
{
    let front = Reader { bytes: s, at: 0 };
    front.mark(a, b, c)?;
    let (version, next) = front.moved(BEHIND_MARK).number(Width::Two)?;
    if version < 1 || newest < version {
        return Err(Reason::WrongVersion.at(BEHIND_MARK));
    }
    Ok((version, next))
}
