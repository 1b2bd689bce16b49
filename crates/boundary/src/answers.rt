// What a call answers, as one number: the refusal's number times 2^32, and its position, or the length written.
ghost use Rattle.std.specs.Prelude.{◌≡◌};
ghost use Rattle.boundary.specs.Answers.{as_word, verdict_number, written_number};

use ground::refusals::Refusal;

// A number as a word; the greatest word for one that is beyond it, which no conversion of the library gives.
pub(crate) fn as_word(n: usize) -> u32
    ensures { result ≡ as_word n }
{
    if n < 4294967295 { n as u32 } else { 4294967295 }
}

pub(crate) fn answer_of(answer: Result<usize, Refusal>) -> u64
    ensures { result ≡ written_number answer }
{
    match answer {
        Ok(length) => as_word(length) as u64,
        Err(refusal) => {
            let number = u8::from(refusal.reason);
            number as u64 * 4294967296 + as_word(refusal.position) as u64
        }
    }
}

// What is taken, with nothing written, answers 0.
pub(crate) fn of_taken<T>(answer: &Result<T, Refusal>) -> u64
    ensures { result ≡ verdict_number answer.now }
{
    match answer {
        Ok(_) => answer_of(Ok(0)),
        Err(refusal) => answer_of(Err(*refusal)),
    }
}
