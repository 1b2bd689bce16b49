// The program `plan` of 01's "The pieces": it plans the envelope on standard input, and prints its listing or its refusal.
// The longest envelope has 621 bytes: longer input is refused by what comes first in it.
// What is printed is made in listing, below; nothing lies above.
#![tactic(auto)]

ghost use Rattle.std.specs.Prelude.{◌≤◌, length, IfOk};

use std::io;
use std::io::Read;

// Reads until the buffer is full or the input ends: how many bytes stand at its front then, which `read_exact` does not say.
fn read_full<R: Read>(input: &mut R, buffer: &mut [u8]) -> io::Result<usize>
    ensures { IfOk result (λ n. n ≤ length buffer.new) }
{
    let mut done: usize = 0;
    while done < buffer.len() {
        let n = input.read(&mut buffer[done..])?;
        if n == 0 {
            break;
        }
        done += n;
    }
    Ok(done)
}

fn main(rt: HostRuntime) -> io::Result<()> {
    let mut paper = [0u8; 1024];
    let n = read_full(&mut rt.stdin(), &mut paper)?;
    let mut out = [0u8; 20480];
    let length = listing::listing::list_paper(&mut out, &paper[..n]);
    if rt.write_all(&out[..length]).is_err() {
        eprintln!(rt; "plan: the listing could not be written whole")?;
    }
    Ok(())
}
