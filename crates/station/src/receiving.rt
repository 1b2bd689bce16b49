// Receiving messages: the values of a step reduce its left relation; the rows of a relation go to the store.
ghost use Rattle.std.specs.Prelude.{◌≡◌, not, ◌+◌, ◌≤◌, ◌<◌, length};
ghost use Rattle.std.proofs.lemmas.List.Edits.{sets};
ghost use Rattle.ground.specs.Tests.{pick};
ghost use Rattle.ground.specs.Outcome.{verdict_of, leaves};
ghost use Rattle.ground.specs.declared.refusals.Reason.TheVariants.{NotSound};
ghost use Rattle.tables.specs.Rising.{is_rising};
ghost use Rattle.ends.specs.Reducing.{step_count};
ghost use Rattle.ends.specs.Ends.{Usable, Marked};
ghost use Rattle.ends.specs.Messages.{front_length, body_of};
ghost use Rattle.station.specs.Receiving.{
  Stored,
  Held,
  is_next,
  not_next,
  values_taken,
  rows_taken,
  receive_with,
  receive_of,
  received_marks,
  received_store,
};

use ends::ends::End;
use ends::messages;
use ends::messages::About;
use ground::refusals::{Reason, Refusal};
use papers::checks::Papers;
use semijoin::marks;

// Step n is the next one of its relation: of those up to n, it is the first missing.
fn is_next(missing: Option<usize>, n: usize) -> bool
    ensures { result ≡ is_next missing n }
{
    missing == Some(n)
}

// A step that is not the next one: 15, then 16 where none up to it is missing, or 17 where an earlier one is.
fn not_next(message: &[u32], missing: Option<usize>) -> Reason
    requires { front_length ≤ length message.now }
    ensures { result ≡ pick (not (is_rising (body_of message.now))) NotSound (not_next missing) }
{
    if !tables::rising::is_rising(&message[messages::FRONT..]) {
        return Reason::NotSound;
    }
    match missing {
        Some(_) => Reason::StepMissing,
        None => Reason::AlreadyTaken,
    }
}

// The values of step n: 14, 15, 16 or 17.
fn take_values(
    papers: Papers,
    end: &mut End,
    tables: &[u32],
    marks: &mut [u8],
    message: &[u32],
    n: usize,
) -> Result<(), Refusal>
    requires { Usable papers tables.now (length marks.old) × (n < step_count papers.program) × (front_length ≤ length message.now) }
    ensures { (result ≡ verdict_of (values_taken papers end.old tables.now marks.old message.now n)) × (end.new ≡ leaves (λ (s : Marked). s.end) end.old (values_taken papers end.old tables.now marks.old message.now n)) × (marks.new ≡ leaves (λ (s : Marked). s.marks) marks.old (values_taken papers end.old tables.now marks.old message.now n)) }
{
    let left = ends::reducing::step_of(papers.program, n).left;
    if !contents::sites::is_at(papers.envelope, end.site, left.relation) {
        return Err(Reason::NotOurs.at(0));
    }
    if !messages::is_counted(message, 1) {
        return Err(Reason::NotSound.at(0));
    }
    let done = ends::ends::applied_of(end.applied, left.relation);
    let missing = ends::reducing::missing_of(papers.program, left.relation, done, n + 1);
    if !is_next(missing, n) {
        return Err(not_next(message, missing).at(0));
    }
    marks::reduce_by(
        papers.envelope,
        left,
        tables,
        &message[messages::FRONT..],
        marks,
    )?;
    end.applied[left.relation as usize] = done + 1;
    Ok(())
}

// The message behind the words that are held.
fn append(store: &mut [u32], used: usize, message: &[u32])
    requires { used + length message.now ≤ length store.old }
    ensures { store.new ≡ sets store.old used message.now }
{
    // word by word: what the library copies a slice by needs a function of C that nothing else of the archive needs
    for i in 0..message.len() {
        store[used + i] = message[i];
    }
}

// The rows of a relation: 14, 15, 16, 11.
fn take_rows(
    papers: Papers,
    end: &mut End,
    store: &mut [u32],
    message: &[u32],
    relation: u8,
) -> Result<(), Refusal>
    requires { relation < 8 }
    ensures { (result ≡ verdict_of (rows_taken papers end.old store.old message.now relation)) × (end.new ≡ leaves (λ (s : Stored). s.end) end.old (rows_taken papers end.old store.old message.now relation)) × (store.new ≡ leaves (λ (s : Stored). s.store) store.old (rows_taken papers end.old store.old message.now relation)) }
{
    if end.site != papers.program.site as u32 {
        return Err(Reason::NotOurs.at(0));
    }
    let columns = contents::kept::kept_columns(papers.envelope, relation);
    if !messages::is_counted(message, columns.count) {
        return Err(Reason::NotSound.at(0));
    }
    if end.arrived[relation as usize] {
        return Err(Reason::AlreadyTaken.at(0));
    }
    if store.len() < message.len() {
        return Err(Reason::TooShort.at(0));
    }
    if store.len() - message.len() < end.used {
        return Err(Reason::TooShort.at(0));
    }
    append(store, end.used, message);
    end.arrived[relation as usize] = true;
    end.used += message.len();
    Ok(())
}

// With a usable end: 1, 13, then by what the second word speaks of.
fn receive_with(
    papers: Papers,
    end: &mut End,
    tables: &[u32],
    marks: &mut [u8],
    store: &mut [u32],
    message: &[u32],
) -> Result<(), Refusal>
    requires { Usable papers tables.now (length marks.old) }
    ensures { (result ≡ verdict_of (receive_with papers end.old tables.now marks.old store.old message.now)) × (end.new ≡ leaves (λ (h : Held). h.end) end.old (receive_with papers end.old tables.now marks.old store.old message.now)) × (marks.new ≡ received_marks marks.old (receive_with papers end.old tables.now marks.old store.old message.now)) × (store.new ≡ received_store store.old (receive_with papers end.old tables.now marks.old store.old message.now)) }
{
    if message.len() < messages::FRONT {
        return Err(Reason::EndsInside.at(0));
    }
    if message[messages::RUN] != end.run {
        return Err(Reason::OtherRun.at(0));
    }
    let steps = ends::reducing::step_count(papers.program);
    let relations = ground::used::in_use(8, papers.envelope.relation_count);
    let about = messages::speaks_of(steps, relations as u8, message[messages::SECOND]);
    match about {
        About::Nothing => Err(Reason::NotOurs.at(0)),
        About::Step(n) => take_values(papers, end, tables, marks, message, n),
        About::Rows(relation) => take_rows(papers, end, store, message, relation),
    }
}

// A message: the end's papers and counts, 10, 11 (marks), 1, 13, 14, 15, 16 or 17, 11 (store).
pub fn receive(
    end: &mut End,
    tables: &[u32],
    marks: &mut [u8],
    store: &mut [u32],
    message: &[u32],
) -> Result<(), Refusal>
    ensures { (result ≡ verdict_of (receive_of end.old tables.now marks.old store.old message.now)) × (end.new ≡ leaves (λ (h : Held). h.end) end.old (receive_of end.old tables.now marks.old store.old message.now)) × (marks.new ≡ received_marks marks.old (receive_of end.old tables.now marks.old store.old message.now)) × (store.new ≡ received_store store.old (receive_of end.old tables.now marks.old store.old message.now)) }
{
    let papers = ends::ends::usable_end(*end, tables, marks.len())?;
    receive_with(papers, end, tables, marks, store, message)
}
