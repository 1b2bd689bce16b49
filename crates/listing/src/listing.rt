// The lines that are printed of a plan: its heading, its steps, its last line; or the refusal alone.
ghost use Rattle.std.specs.Prelude.{◌≡◌, ◌≤◌, length};
ghost use Rattle.ground.specs.Lists.{each};
ghost use Rattle.ground.specs.Outcome.{taken_of};
ghost use Rattle.fields.specs.Puts.{Puts, Fronts};
ghost use Rattle.envelopes.specs.Envelope.{read_envelope};
ghost use Rattle.planner.specs.Plan.{plan_of};
ghost use Rattle.listing.specs.Listing.{step_text, step_line, last_line, plan_lines, refused_line, listing_of, numbered, listing};

use crate::texts;
use estimates::lines::Line;
use ground::refusals::Refusal;
use paths::steps::Step;
use planner::plans::Plan;

fn put_step(out: &mut [u8], at: usize, step: Step) -> usize
    requires { at ≤ 50000 }
    ensures { Puts out.old at 83 (step_text step) result out.new }
{
    let left = step.left;
    let right = step.right;
    let a = texts::put_decimal(out, at, left.relation as u64);
    let b = texts::put_behind(out, a, b" ", left.column as u64);
    let c = texts::put_behind(out, b, b" ", right.relation as u64);
    texts::put_behind(out, c, b" ", right.column as u64)
}

fn put_step_line(out: &mut [u8], at: usize, line: Line) -> usize
    requires { at ≤ 50000 }
    ensures { Puts out.old at 126 (step_line line) result out.new }
{
    let step = line.step;
    let a = put_step(out, at, step);
    let b = texts::put_behind(out, a, b" ", line.benefit);
    let c = texts::put_behind(out, b, b" ", line.cost);
    texts::put_words(out, c, b"\n")
}

// The lines of the steps. A line in decimals has no fixed length, so it is no part as those of a paper are.
fn put_step_lines(out: &mut [u8], at: usize, lines: &[Line]) -> usize
    requires { (at ≤ 10000) × (length lines.now ≤ 156) }
    ensures { Puts out.old at 19656 (each step_line lines.now) result out.new }
{
    let mut p = at;
    for line in lines {
        p = put_step_line(out, p, *line);
    }
    p
}

fn put_last_line(out: &mut [u8], at: usize, plan: Plan) -> usize
    requires { at ≤ 50000 }
    ensures { Puts out.old at 110 (last_line plan) result out.new }
{
    let a = texts::put_behind(out, at, b"site ", plan.site as u64);
    let b = texts::put_behind(out, a, b" assembly ", plan.assembly);
    let c = texts::put_behind(out, b, b" total ", plan.total);
    let d = texts::put_behind(out, c, b" local ", plan.local);
    texts::put_words(out, d, b"\n")
}

fn put_plan(out: &mut [u8], plan: Plan) -> usize
    ensures { Puts out.old 0 19804 (plan_lines plan) result out.new }
{
    let lines = ground::used::first(&plan.lines, plan.count);
    let a = texts::put_words(out, 0, b"left column right column benefit cost\n");
    let b = put_step_lines(out, a, lines);
    put_last_line(out, b, plan)
}

// The words that a refusal prints, as bytes: what a formatter promises does not say how far a short buffer goes.
fn put_refusal(out: &mut [u8], number: u8, position: usize) -> usize
    ensures { Puts out.old 0 50 (refused_line number position) result out.new }
{
    let a = texts::put_behind(out, 0, b"refused ", number as u64);
    let b = texts::put_behind(out, a, b" ", position as u64);
    texts::put_words(out, b, b"\n")
}

// The listing of a plan, or of what it is refused by, whatever number that is, at the front of a buffer, as far as the buffer goes; and
// its length.
pub fn put_listing(out: &mut [u8], plan: Result<Plan, (u8, usize)>) -> usize
    ensures { Fronts out.old 19804 (listing_of plan) result out.new }
{
    match plan {
        Ok(plan) => put_plan(out, plan),
        Err((number, position)) => put_refusal(out, number, position),
    }
}

// A plan, or the number and the position that it is refused by.
#[tactic(auto, unfolding(crate::specs::Listing::numbered))]
fn numbered(plan: Result<Plan, Refusal>) -> Result<Plan, (u8, usize)>
    ensures { result ≡ numbered plan }
{
    match plan {
        Ok(plan) => Ok(plan),
        Err(refusal) => Err((u8::from(refusal.reason), refusal.position)),
    }
}

// The same for an envelope's bytes.
pub fn list_paper(out: &mut [u8], paper: &[u8]) -> usize
    ensures { Fronts out.old 19804 (listing (taken_of (plan_of (read_envelope paper.now)))) result out.new }
{
    let plan = planner::planner::plan_paper(paper);
    put_listing(out, numbered(plan))
}
