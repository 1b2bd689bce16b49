// The calls of boundary for C, under the names in include/legestran.h: each is a call of the function of its own name, and promises what
// that promises. C has its slices as a pointer and a length. Below lies boundary; of Rattle's crates nothing lies above.
#![tactic(auto)]

ghost use Rattle.std.specs.Prelude.{◌≡◌, length};
ghost use Rattle.ground.specs.Outcome.{verdict_of, value_of};
ghost use Rattle.fields.specs.Puts.{written_of, written_in};
ghost use Rattle.envelopes.specs.Envelope.{read_envelope};
ghost use Rattle.station.specs.Opening.{opened_marks};
ghost use Rattle.station.specs.Receiving.{received_marks, received_store};
ghost use Rattle.boundary.specs.Answers.{verdict_number, written_number};
ghost use Rattle.boundary.specs.Given.{papers_in};
ghost use Rattle.boundary.specs.Planning.{plan_from, estimate_from};
ghost use Rattle.boundary.specs.Running.{run_from, answer_from};
ghost use Rattle.boundary.specs.Stations.{
  open_from,
  opened_state,
  make_values_from,
  make_rows_from,
  receive_from,
  received_state,
  answer_end_from,
};

// 1: an envelope is read. Taken, 0.
#[unsafe(no_mangle)]
pub extern "C" fn legestran_read_envelope(envelope: &[u8]) -> u64
    ensures { result ≡ verdict_number (verdict_of (read_envelope envelope.now)) }
{
    boundary::given::legestran_read_envelope(envelope)
}

// 2: an envelope, then a program for it, is read. Taken, 0.
#[unsafe(no_mangle)]
pub extern "C" fn legestran_read_program(envelope: &[u8], program: &[u8]) -> u64
    ensures { result ≡ verdict_number (verdict_of (papers_in envelope.now program.now)) }
{
    boundary::given::legestran_read_program(envelope, program)
}

// 3: the program for an envelope, at the front of program. Taken, the bytes written.
#[unsafe(no_mangle)]
pub extern "C" fn legestran_plan(envelope: &[u8], program: &mut [u8]) -> u64
    ensures { (result ≡ written_number (written_of (plan_from envelope.now (length program.old)))) × (program.new ≡ written_in program.old (plan_from envelope.now (length program.old))) }
{
    boundary::planning::legestran_plan(envelope, program)
}

// 4: the one-place run of a program: the marks of every row, after local operations and every step. Taken, 0.
#[unsafe(no_mangle)]
pub extern "C" fn legestran_run_in_one_place(
    envelope: &[u8],
    program: &[u8],
    tables: &[u32],
    marks: &mut [u8],
) -> u64
    ensures { (result ≡ verdict_number (verdict_of (run_from envelope.now program.now tables.now marks.old))) × (marks.new ≡ value_of marks.old (run_from envelope.now program.now tables.now marks.old)) }
{
    boundary::running::legestran_run_in_one_place(envelope, program, tables, marks)
}

// 5: the answer on tables, at the front of out. Taken, the words written.
#[unsafe(no_mangle)]
pub extern "C" fn legestran_answer(envelope: &[u8], tables: &[u32], out: &mut [u32]) -> u64
    ensures { (result ≡ written_number (written_of (answer_from envelope.now tables.now (length out.old)))) × (out.new ≡ written_in out.old (answer_from envelope.now tables.now (length out.old))) }
{
    boundary::running::legestran_answer(envelope, tables, out)
}

// 6: an end is opened: its marks and its state. Taken, 0.
#[unsafe(no_mangle)]
pub extern "C" fn legestran_open(
    envelope: &[u8],
    program: &[u8],
    site: u32,
    run: u32,
    tables: &[u32],
    marks: &mut [u8],
    state: &mut [u32],
) -> u64
    ensures { (result ≡ verdict_number (verdict_of (open_from envelope.now program.now site run tables.now marks.old state.old))) × (marks.new ≡ opened_marks marks.old (open_from envelope.now program.now site run tables.now marks.old state.old)) × (state.new ≡ opened_state state.old (open_from envelope.now program.now site run tables.now marks.old state.old)) }
{
    boundary::stations::legestran_open(envelope, program, site, run, tables, marks, state)
}

// 7: the value message of a step, at the front of message. Taken, the words written.
#[unsafe(no_mangle)]
pub extern "C" fn legestran_make_values(
    envelope: &[u8],
    program: &[u8],
    state: &[u32],
    tables: &[u32],
    marks: &[u8],
    step: u32,
    message: &mut [u32],
) -> u64
    ensures { (result ≡ written_number (written_of (make_values_from envelope.now program.now state.now tables.now marks.now step (length message.old)))) × (message.new ≡ written_in message.old (make_values_from envelope.now program.now state.now tables.now marks.now step (length message.old))) }
{
    boundary::stations::legestran_make_values(
        envelope, program, state, tables, marks, step, message,
    )
}

// 8: the row message of a relation, at the front of message. Taken, the words written.
#[unsafe(no_mangle)]
pub extern "C" fn legestran_make_rows(
    envelope: &[u8],
    program: &[u8],
    state: &[u32],
    tables: &[u32],
    marks: &[u8],
    relation: u32,
    message: &mut [u32],
) -> u64
    ensures { (result ≡ written_number (written_of (make_rows_from envelope.now program.now state.now tables.now marks.now relation (length message.old)))) × (message.new ≡ written_in message.old (make_rows_from envelope.now program.now state.now tables.now marks.now relation (length message.old))) }
{
    boundary::stations::legestran_make_rows(
        envelope, program, state, tables, marks, relation, message,
    )
}

// 9: a message is received: the state, the marks and the store. Taken, 0.
#[unsafe(no_mangle)]
pub extern "C" fn legestran_receive(
    envelope: &[u8],
    program: &[u8],
    state: &mut [u32],
    tables: &[u32],
    marks: &mut [u8],
    store: &mut [u32],
    message: &[u32],
) -> u64
    ensures { (result ≡ verdict_number (verdict_of (receive_from envelope.now program.now state.old tables.now marks.old store.old message.now))) × (state.new ≡ received_state state.old (receive_from envelope.now program.now state.old tables.now marks.old store.old message.now)) × (marks.new ≡ received_marks marks.old (receive_from envelope.now program.now state.old tables.now marks.old store.old message.now)) × (store.new ≡ received_store store.old (receive_from envelope.now program.now state.old tables.now marks.old store.old message.now)) }
{
    boundary::stations::legestran_receive(envelope, program, state, tables, marks, store, message)
}

// 10: the answer at the assembly site, at the front of out. Taken, the words written.
#[unsafe(no_mangle)]
pub extern "C" fn legestran_answer_at_end(
    envelope: &[u8],
    program: &[u8],
    state: &[u32],
    store: &[u32],
    out: &mut [u32],
) -> u64
    ensures { (result ≡ written_number (written_of (answer_end_from envelope.now program.now state.now store.now (length out.old)))) × (out.new ≡ written_in out.old (answer_end_from envelope.now program.now state.now store.now (length out.old))) }
{
    boundary::stations::legestran_answer_at_end(envelope, program, state, store, out)
}

// 11: what a program is expected to cost, at the front of out. Taken, the words written.
#[unsafe(no_mangle)]
pub extern "C" fn legestran_estimate(envelope: &[u8], program: &[u8], out: &mut [u32]) -> u64
    ensures { (result ≡ written_number (written_of (estimate_from envelope.now program.now (length out.old)))) × (out.new ≡ written_in out.old (estimate_from envelope.now program.now (length out.old))) }
{
    boundary::planning::legestran_estimate(envelope, program, out)
}
