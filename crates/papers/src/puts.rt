// A program put into a lent buffer, as far as the buffer goes. Each function answers the position past the bytes of its
// part, which is no further than the part's greatest length, so that positions fit.
ghost use Rattle.std.specs.Prelude.{◌≤◌, length};
ghost use Rattle.ground.specs.Lists.{each};
ghost use Rattle.fields.specs.Puts.{Puts, Fronts};
ghost use Rattle.paths.specs.Steps.{step_bytes};
ghost use Rattle.papers.specs.Programs.{program_bytes};

use crate::programs::Program;
use fields::numbers::Width;
use fields::puts;
use paths::steps::Step;

fn put_step(out: &mut [u8], at: usize, step: Step) -> usize
    requires { at ≤ 100000 }
    ensures { Puts out.old at 4 (step_bytes step) result out.new }
{
    let left = step.left;
    let right = step.right;
    puts::put_number(out, at, Width::One, left.relation as u32);
    puts::put_number(out, at + 1, Width::One, left.column as u32);
    puts::put_number(out, at + 2, Width::One, right.relation as u32);
    puts::put_number(out, at + 3, Width::One, right.column as u32);
    at + 4
}

// The steps, one behind the other.
fn put_steps(out: &mut [u8], at: usize, steps: &[Step]) -> usize
    requires { (at ≤ 10000) × (length steps.now ≤ 156) }
    ensures { Puts out.old at 624 (each step_bytes steps.now) result out.new }
{
    let mut end = at;
    for step in steps {
        end = put_step(out, end, *step);
    }
    end
}

// The bytes of a program, from the front of the buffer on.
pub(crate) fn put_program(out: &mut [u8], program: Program) -> usize
    ensures { Fronts out.old 631 (program_bytes program) result out.new }
{
    let p = puts::put_head(out, b'S', b'J', b'P', 1);
    puts::put_number(out, p, Width::One, program.site as u32);
    puts::put_number(out, p + 1, Width::One, program.count as u32);
    put_steps(
        out,
        p + 2,
        ground::used::first(&program.steps, program.count),
    )
}
