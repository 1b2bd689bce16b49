// An estimate and its lines.
ghost use Rattle.std.specs.Prelude.{◌≡◌};
ghost use Rattle.estimates.specs.Estimate.{no_line};

use paths::steps::Step;

// A step of a program with its benefit and its cost in that program.
#[derive(Clone, Copy)]
pub struct Line {
    pub step: Step,
    pub benefit: u64,
    pub cost: u64,
}

// What a given program is expected to cost.
#[derive(Clone, Copy)]
pub struct Estimate {
    pub count: u8,
    pub lines: [Line; 156],
    pub assembly: u64,
    pub total: u64,
}

// What stands behind the last line.
pub fn no_line() -> Line
    ensures { result ≡ no_line }
{
    let step = papers::programs::no_step();
    Line {
        step: step,
        benefit: 0,
        cost: 0,
    }
}
