// What is printed: how a call is answered, and what was lent, as it is afterwards.
use ends::ends::End;
use ground::refusals::Refusal;
use std::fmt::Display;
use std::io;

pub(crate) fn print_taken<T: Drop>(
    rt: &impl Print,
    what: &str,
    answer: Result<T, Refusal>,
) -> io::Result<()> {
    match answer {
        Ok(_) => println!(rt; "{what}: taken"),
        Err(refusal) => println!(rt; "{what}: {refusal}"),
    }
}

// A line of numbers.
pub(crate) fn print_numbers<T: Display>(
    rt: &impl Print,
    what: &str,
    numbers: &[T],
) -> io::Result<()> {
    print!(rt; "{what}")?;
    for number in numbers {
        print!(rt; " ")?;
        print!(rt; "{number}")?;
    }
    println!(rt;)
}

// Steps applied and row messages arrived of each relation, and the words used of the store.
pub(crate) fn print_end(rt: &impl Print, end: End) -> io::Result<()> {
    print_numbers(rt, "  applied", &end.applied)?;
    print_numbers(rt, "  arrived", &end.arrived.map(u32::from))?;
    let used = end.used;
    println!(rt; "  used {used}")
}

pub(crate) fn print_made(
    rt: &impl Print,
    what: &str,
    made: Result<usize, Refusal>,
    message: &[u32],
) -> io::Result<()> {
    match made {
        Ok(length) => println!(rt; "{what}: made {length}")?,
        Err(refusal) => println!(rt; "{what}: {refusal}")?,
    }
    print_numbers(rt, "  message", message)
}
