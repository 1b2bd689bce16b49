// The planner's answer.
use estimates::lines::Line;

// The program handed out, with what it is expected to cost, and what local operations alone would.
#[derive(Clone, Copy)]
pub struct Plan {
    pub site: u8,
    pub count: u8,
    pub lines: [Line; 156],
    pub assembly: u64,
    pub total: u64,
    pub local: u64,
}
