// Words and decimal numbers put into a lent buffer, as far as the buffer goes. Each function answers the position past what
// it put, which is no further than a part's greatest length, so that positions fit.
ghost use Rattle.std.specs.Prelude.{◌+◌, ◌^◌, ◌≤◌, ◌<◌, [], ◌∷◌, ◌++◌, ◌≡◌, length, set};
ghost use Rattle.fields.specs.Puts.{Puts};
ghost use Rattle.listing.specs.Text.{decimal_in, decimal};

use fields::numbers::Width;
use fields::puts;

// One byte, where the buffer goes that far: of a `get_mut` that finds none it is not known that the buffer stays.
fn put_letter(out: &mut [u8], at: usize, letter: u8)
    ensures { out.new ≡ set out.old at letter }
{
    puts::put_number(out, at, Width::One, letter as u32);
}

pub(crate) fn put_words(out: &mut [u8], at: usize, words: &[u8]) -> usize
    requires { (at ≤ 90000) × (length words.now ≤ 100) }
    ensures { Puts out.old at (length words.now) words.now result out.new }
{
    for (i, letter) in words.iter().enumerate() {
        put_letter(out, at + i, *letter);
    }
    at + words.len()
}

fn put_digit(out: &mut [u8], at: usize, digit: u64) -> usize
    requires { (at ≤ 200000) × (digit < 10) }
    ensures { Puts out.old at 1 ((48 + digit) ∷ []) result out.new }
{
    put_letter(out, at, 48 + digit as u8);
    at + 1
}

// A number that has at most k digits: those before the last, and the last.
fn put_digits(out: &mut [u8], at: usize, n: u64, k: u8) -> usize
    requires { (at ≤ 100000) × (k ≤ 20) × (n < 10 ^ k) × (0 < k) }
    ensures { Puts out.old at k (decimal_in k n) result out.new }
{
    if n < 10 {
        return put_digit(out, at, n);
    }
    let p = put_digits(out, at, n / 10, k - 1);
    put_digit(out, p, n % 10)
}

pub(crate) fn put_decimal(out: &mut [u8], at: usize, n: u64) -> usize
    requires { at ≤ 100000 }
    ensures { Puts out.old at 20 (decimal n) result out.new }
{
    put_digits(out, at, n, 20)
}

// A number behind some words.
pub(crate) fn put_behind(out: &mut [u8], at: usize, words: &[u8], n: u64) -> usize
    requires { (at ≤ 90000) × (length words.now ≤ 100) }
    ensures { Puts out.old at (length words.now + 20) (words.now ++ decimal n) result out.new }
{
    let p = put_words(out, at, words);
    put_decimal(out, p, n)
}
