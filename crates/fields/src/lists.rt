// Lists of a paper: so many of a kind read one after the other, into an array of a fixed size.
ghost use Rattle.std.specs.Prelude.{◌≡◌, ℕ, min};
ghost use Rattle.ground.specs.Outcome.{Outcome, many, read_of};
ghost use Rattle.fields.specs.Lists.{ReadsBy, arrayed, counted};

use crate::numbers::Width;
use ground::refusals::Refusal;

// Each is read by what is passed, from the position past the one before, as many as the array has room for; behind the last one stands
// an empty value.
pub fn read_many<T: Copy, const N: usize, F: Fn(usize) -> Result<(T, usize), Refusal>>(
    n: usize,
    at: usize,
    empty: T,
    read: F,
) -> Result<([T; N], usize), Refusal>
    requires callable { F.IsAlwaysCallable read }
    ensures { (item : ℕ → Outcome T) → ReadsBy (F.post read) item → result ≡ read_of (arrayed N empty (many item (min n N) at)) }
{
    let n = n.min(N);
    let mut out = [empty; N];
    let mut end = at;
    for i in 0..n {
        let (value, next) = read(end)?;
        out[i] = value;
        end = next;
    }
    Ok((out, end))
}

// A count of one byte, from low to the array's size, and as many of a kind. No byte is above 255, however large the array.
pub fn read_list<T: Copy, const N: usize, F: Fn(usize) -> Result<(T, usize), Refusal>>(
    s: &[u8],
    at: usize,
    low: u32,
    empty: T,
    read: F,
) -> Result<((u8, [T; N]), usize), Refusal>
    requires callable { F.IsAlwaysCallable read }
    ensures { (item : ℕ → Outcome T) → ReadsBy (F.post read) item → result ≡ read_of (counted low N empty item s.now at) }
{
    let (count, start) = crate::numbers::number_in(s, at, Width::One, low, N.min(255) as u32)?;
    let (all, end) = read_many(count as usize, start, empty, read)?;
    Ok(((count as u8, all), end))
}
