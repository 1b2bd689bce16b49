// The calls on an end that the caller keeps as 19 words: opened, messages made and received, the answer.
ghost use Rattle.std.specs.Prelude.{◌≡◌, [], ◌≤◌, length};
ghost use Rattle.ground.specs.Outcome.{verdict_of};
ghost use Rattle.fields.specs.Puts.{written_of, written_in};
ghost use Rattle.station.specs.Opening.{opened_marks};
ghost use Rattle.station.specs.Receiving.{received_marks, received_store};
ghost use Rattle.boundary.specs.Answers.{verdict_number, written_number};
ghost use Rattle.boundary.specs.States.{state_length};
ghost use Rattle.boundary.specs.Stations.{
  open_given,
  open_from,
  opened_state,
  make_values_from,
  make_rows_from,
  receive_given,
  receive_from,
  received_state,
  answer_end_from,
};

use crate::answers::{answer_of, of_taken};
use contents::envelope::Envelope;
use ends::ends::End;
use ground::refusals::{Reason, Refusal};
use papers::checks::Papers;
use papers::programs::Program;

// What an opening whose state is too short is refused by: all that comes before, then 11. Marks that are not the caller's are
// lent for it, so that nothing is changed.
fn refuse_opening(
    envelope: Envelope,
    program: Program,
    site: u32,
    run: u32,
    tables: &[u32],
) -> Result<(), Refusal>
    ensures { result ≡ verdict_of (open_given envelope program site run tables.now [] []) }
{
    let mut none = [0u8; 1];
    station::opening::open(envelope, program, site, run, tables, &mut none)?;
    Err(Reason::TooShort.at(0))
}

// With papers that were read.
fn open_given(
    papers: Papers,
    site: u32,
    run: u32,
    tables: &[u32],
    marks: &mut [u8],
    state: &mut [u32],
) -> Result<(), Refusal>
    ensures { (result ≡ verdict_of (open_given papers.envelope papers.program site run tables.now marks.old state.old)) × (marks.new ≡ opened_marks marks.old (open_given papers.envelope papers.program site run tables.now marks.old state.old)) × (state.new ≡ opened_state state.old (open_given papers.envelope papers.program site run tables.now marks.old state.old)) }
{
    let envelope = papers.envelope;
    let program = papers.program;
    if state.len() < crate::states::LENGTH {
        return refuse_opening(envelope, program, site, run, tables);
    }
    let end = station::opening::open(envelope, program, site, run, tables, marks)?;
    crate::states::put_state(end, state);
    Ok(())
}

fn open(
    envelope: &[u8],
    program: &[u8],
    site: u32,
    run: u32,
    tables: &[u32],
    marks: &mut [u8],
    state: &mut [u32],
) -> Result<(), Refusal>
    ensures { (result ≡ verdict_of (open_from envelope.now program.now site run tables.now marks.old state.old)) × (marks.new ≡ opened_marks marks.old (open_from envelope.now program.now site run tables.now marks.old state.old)) × (state.new ≡ opened_state state.old (open_from envelope.now program.now site run tables.now marks.old state.old)) }
{
    let papers = crate::given::read_papers(envelope, program)?;
    open_given(papers, site, run, tables, marks, state)
}

// 6: an end is opened: its marks and its state. Taken, 0.
pub fn legestran_open(
    envelope: &[u8],
    program: &[u8],
    site: u32,
    run: u32,
    tables: &[u32],
    marks: &mut [u8],
    state: &mut [u32],
) -> u64
    ensures { (result ≡ verdict_number (verdict_of (open_from envelope.now program.now site run tables.now marks.old state.old))) × (marks.new ≡ opened_marks marks.old (open_from envelope.now program.now site run tables.now marks.old state.old)) × (state.new ≡ opened_state state.old (open_from envelope.now program.now site run tables.now marks.old state.old)) }
{
    of_taken(&open(envelope, program, site, run, tables, marks, state))
}

fn make_values(
    envelope: &[u8],
    program: &[u8],
    state: &[u32],
    tables: &[u32],
    marks: &[u8],
    step: u32,
    message: &mut [u32],
) -> Result<usize, Refusal>
    ensures { (result ≡ written_of (make_values_from envelope.now program.now state.now tables.now marks.now step (length message.old))) × (message.new ≡ written_in message.old (make_values_from envelope.now program.now state.now tables.now marks.now step (length message.old))) }
{
    let end = crate::given::read_end(envelope, program, state)?;
    station::making::make_values(end, tables, marks, step, message)
}

// 7: the value message of a step, at the front of message. Taken, the words written.
pub fn legestran_make_values(
    envelope: &[u8],
    program: &[u8],
    state: &[u32],
    tables: &[u32],
    marks: &[u8],
    step: u32,
    message: &mut [u32],
) -> u64
    ensures { (result ≡ written_number (written_of (make_values_from envelope.now program.now state.now tables.now marks.now step (length message.old)))) × (message.new ≡ written_in message.old (make_values_from envelope.now program.now state.now tables.now marks.now step (length message.old))) }
{
    answer_of(make_values(envelope, program, state, tables, marks, step, message))
}

fn make_rows(
    envelope: &[u8],
    program: &[u8],
    state: &[u32],
    tables: &[u32],
    marks: &[u8],
    relation: u32,
    message: &mut [u32],
) -> Result<usize, Refusal>
    ensures { (result ≡ written_of (make_rows_from envelope.now program.now state.now tables.now marks.now relation (length message.old))) × (message.new ≡ written_in message.old (make_rows_from envelope.now program.now state.now tables.now marks.now relation (length message.old))) }
{
    let end = crate::given::read_end(envelope, program, state)?;
    station::making::make_rows(end, tables, marks, relation, message)
}

// 8: the row message of a relation, at the front of message. Taken, the words written.
pub fn legestran_make_rows(
    envelope: &[u8],
    program: &[u8],
    state: &[u32],
    tables: &[u32],
    marks: &[u8],
    relation: u32,
    message: &mut [u32],
) -> u64
    ensures { (result ≡ written_number (written_of (make_rows_from envelope.now program.now state.now tables.now marks.now relation (length message.old)))) × (message.new ≡ written_in message.old (make_rows_from envelope.now program.now state.now tables.now marks.now relation (length message.old))) }
{
    answer_of(make_rows(envelope, program, state, tables, marks, relation, message))
}

// With an end that was read from the state.
fn receive_given(
    end: End,
    state: &mut [u32],
    tables: &[u32],
    marks: &mut [u8],
    store: &mut [u32],
    message: &[u32],
) -> Result<(), Refusal>
    requires { state_length ≤ length state.old }
    ensures { (result ≡ verdict_of (receive_given end tables.now marks.old store.old message.now)) × (state.new ≡ received_state state.old (receive_given end tables.now marks.old store.old message.now)) × (marks.new ≡ received_marks marks.old (receive_given end tables.now marks.old store.old message.now)) × (store.new ≡ received_store store.old (receive_given end tables.now marks.old store.old message.now)) }
{
    if 4294967295 < store.len() {
        return Err(Reason::BeyondLimit.at(0));
    }
    let mut after = end;
    station::receiving::receive(&mut after, tables, marks, store, message)?;
    crate::states::put_state(after, state);
    Ok(())
}

fn receive(
    envelope: &[u8],
    program: &[u8],
    state: &mut [u32],
    tables: &[u32],
    marks: &mut [u8],
    store: &mut [u32],
    message: &[u32],
) -> Result<(), Refusal>
    ensures { (result ≡ verdict_of (receive_from envelope.now program.now state.old tables.now marks.old store.old message.now)) × (state.new ≡ received_state state.old (receive_from envelope.now program.now state.old tables.now marks.old store.old message.now)) × (marks.new ≡ received_marks marks.old (receive_from envelope.now program.now state.old tables.now marks.old store.old message.now)) × (store.new ≡ received_store store.old (receive_from envelope.now program.now state.old tables.now marks.old store.old message.now)) }
{
    let end = crate::given::read_end(envelope, program, state)?;
    receive_given(end, state, tables, marks, store, message)
}

// 9: a message is received: the state, the marks and the store. Taken, 0.
pub fn legestran_receive(
    envelope: &[u8],
    program: &[u8],
    state: &mut [u32],
    tables: &[u32],
    marks: &mut [u8],
    store: &mut [u32],
    message: &[u32],
) -> u64
    ensures { (result ≡ verdict_number (verdict_of (receive_from envelope.now program.now state.old tables.now marks.old store.old message.now))) × (state.new ≡ received_state state.old (receive_from envelope.now program.now state.old tables.now marks.old store.old message.now)) × (marks.new ≡ received_marks marks.old (receive_from envelope.now program.now state.old tables.now marks.old store.old message.now)) × (store.new ≡ received_store store.old (receive_from envelope.now program.now state.old tables.now marks.old store.old message.now)) }
{
    of_taken(&receive(envelope, program, state, tables, marks, store, message))
}

fn answer_at_end(
    envelope: &[u8],
    program: &[u8],
    state: &[u32],
    store: &[u32],
    out: &mut [u32],
) -> Result<usize, Refusal>
    ensures { (result ≡ written_of (answer_end_from envelope.now program.now state.now store.now (length out.old))) × (out.new ≡ written_in out.old (answer_end_from envelope.now program.now state.now store.now (length out.old))) }
{
    let end = crate::given::read_end(envelope, program, state)?;
    answerer::assembly::answer_at_end(end, store, out)
}

// 10: the answer at the assembly site, at the front of out. Taken, the words written.
pub fn legestran_answer_at_end(
    envelope: &[u8],
    program: &[u8],
    state: &[u32],
    store: &[u32],
    out: &mut [u32],
) -> u64
    ensures { (result ≡ written_number (written_of (answer_end_from envelope.now program.now state.now store.now (length out.old)))) × (out.new ≡ written_in out.old (answer_end_from envelope.now program.now state.now store.now (length out.old))) }
{
    answer_of(answer_at_end(envelope, program, state, store, out))
}
