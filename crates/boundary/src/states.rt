// What an end remembers between calls, as 19 words: site, run, used, applied 0 to 7, arrived 0 to 7.
ghost use Rattle.std.specs.Prelude.{◌≡◌, ◌≤◌, ◌<◌, length, nat_lt};
ghost use Rattle.ground.specs.Lists.{any};
ghost use Rattle.boundary.specs.States.{state_length, unclear, end_of, applied_word, state_after};

use ends::ends::End;
use papers::checks::Papers;
use std::array;

// How many words there are, and where they stand; those of relations from a place on.
pub(crate) const LENGTH: usize = 19;

const SITE: usize = 0;

const RUN: usize = 1;

const USED: usize = 2;

const APPLIED: usize = 3;

const ARRIVED: usize = 11;

fn is_any_above_one(words: &[u32]) -> bool
    ensures { result ≡ any (λ w. nat_lt 1 w) words.now }
{
    words.iter().any(|word| 1 < *word)
}

// Whether an arrived word is neither 0 nor 1.
pub(crate) fn is_unclear(state: &[u32]) -> bool
    requires { state_length ≤ length state.now }
    ensures { result ≡ unclear state.now }
{
    is_any_above_one(&state[ARRIVED..LENGTH])
}

// The end that the papers and the words are.
pub(crate) fn end_of(papers: Papers, state: &[u32]) -> End
    requires { state_length ≤ length state.now }
    ensures { result ≡ end_of papers state.now }
{
    End {
        envelope: papers.envelope,
        program: papers.program,
        site: state[SITE],
        run: state[RUN],
        applied: array::from_fn(|relation| state[APPLIED + relation]),
        arrived: array::from_fn(|relation| state[ARRIVED + relation] == 1),
        used: state[USED] as usize,
    }
}

// The applied word of a relation: behind the last one it stays as it is.
fn applied_word(relations: usize, applied: [u32; 8], state: &[u32], relation: usize) -> u32
    requires { (state_length ≤ length state.now) × (relation < 8) }
    ensures { result ≡ applied_word relations applied state.now relation }
{
    if relation < relations {
        applied[relation]
    } else {
        state[APPLIED + relation]
    }
}

// The state afterwards: its first 19 words.
pub(crate) fn put_state(end: End, state: &mut [u32])
    requires { state_length ≤ length state.old }
    ensures { state.new ≡ state_after end state.old }
{
    let relations = ground::used::in_use(8, end.envelope.relation_count);
    let applied: [u32; 8] = array::from_fn(|relation| applied_word(
        relations,
        end.applied,
        state,
        relation,
    ));
    state[..APPLIED].copy_from_slice(&[end.site, end.run, crate::answers::as_word(end.used)]);
    state[APPLIED..ARRIVED].copy_from_slice(&applied);
    state[ARRIVED..LENGTH].copy_from_slice(&end.arrived.map(u32::from));
}
