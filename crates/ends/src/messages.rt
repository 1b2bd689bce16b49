// The words of messages: where each stands, what the second word speaks of, whether there are as many words as the count
// says, and the three words in front. The places of a message's words are named here alone.
ghost use Rattle.std.specs.Prelude.{◌≡◌, [], set};
ghost use Rattle.std.proofs.lemmas.List.Edits.{sets};
ghost use Rattle.ends.specs.Messages.{message_of, about_of, counted};

// The run, the word that says what a message speaks of, the count; behind them the body.
pub const RUN: usize = 0;

pub const SECOND: usize = 1;

pub const COUNT: usize = 2;

pub const FRONT: usize = 3;

// What the second word of a row message is above its relation's number.
pub const ROWS_FROM: u32 = 256;

// The values of a step, by its number; the rows of a relation; or nothing that there is.
#[derive(Clone, Copy)]
pub enum About {
    Step(usize),
    Rows(u8),
    Nothing,
}

// What the second word speaks of, where there are so many steps and relations.
pub fn speaks_of(steps: u8, relations: u8, second: u32) -> About
    ensures { result ≡ about_of steps relations second }
{
    if second < steps as u32 {
        return About::Step(second as usize);
    }
    if second < ROWS_FROM {
        return About::Nothing;
    }
    let relation = second - ROWS_FROM;
    if relation < relations as u32 {
        return About::Rows(relation as u8);
    }
    About::Nothing
}

// Whether a message has as many words as its count says, and the count is within the size: so many words for each.
pub fn is_counted(message: &[u32], each: u8) -> bool
    ensures { result ≡ counted each message.now }
{
    if message.len() < FRONT {
        return false;
    }
    let count = message[COUNT] as usize;
    if 4096 < count {
        return false;
    }
    message.len() == FRONT + count * each as usize
}

// One word, where the message goes that far: by its place, since of a `get_mut` that finds none it is not known that the message stays.
fn put_word(message: &mut [u32], at: usize, value: u32)
    ensures { message.new ≡ set message.old at value }
{
    if at < message.len() {
        message[at] = value;
    }
}

// The three words in front, as far as the message goes.
pub fn put_front(message: &mut [u32], run: u32, second: u32, count: u32)
    ensures { message.new ≡ sets message.old 0 (message_of run second count []) }
{
    put_word(message, RUN, run);
    put_word(message, SECOND, second);
    put_word(message, COUNT, count);
}
