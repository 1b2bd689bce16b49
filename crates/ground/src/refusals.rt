// Why something is refused, and at which position: 01's table of the numbers that we refuse by. specs/Refusals.antt has the numbers.
ghost use Rattle.std.specs.Prelude.{◌≡◌, Some};
ghost use Rattle.ground.specs.Refusals.{number_of, refusal, refusal_text};

use std::fmt;

// A comment says which position goes with the reason, where that is not 0.
#[derive(Clone, Copy, PartialEq, Eq)]
pub enum Reason {
    // The paper ends inside a field, with the start of that field; a message has under 3 words, with 0.
    EndsInside = 1,
    // The mark is not the paper's, with its start.
    WrongMark = 2,
    // The version is not one that is taken, with its start.
    WrongVersion = 3,
    // A number is beyond its limit or names nothing, with its start; 0 at opening.
    BeyondLimit = 4,
    // A join of two domains, with the start of the clause.
    TwoDomains = 5,
    // A join of a column with itself, with the start of the clause.
    SameColumn = 6,
    // Bytes are left over, with the first of them.
    LeftOver = 7,
    // A step is not legal, with its number.
    NotLegal = 8,
    // A relation has no kept column, with the lowest such.
    NoKeptColumn = 9,
    // The tables are not of the envelope's shape, or beyond the sizes.
    WrongShape = 10,
    // A lent buffer is too short.
    TooShort = 11,
    // Waiting, with the first missing step, or the lowest missing relation where the answer is asked.
    Waiting = 12,
    // A message of another run.
    OtherRun = 13,
    // Not this end's message, or no such step or relation.
    NotOurs = 14,
    // Words that are not as many as the count says, a count above 4,096, values that do not rise; a store that is not sound.
    NotSound = 15,
    // Already applied, or arrived.
    AlreadyTaken = 16,
    // An earlier step of the same relation is missing.
    StepMissing = 17,
}

// A reason with what goes with it.
#[derive(Clone, Copy, PartialEq, Eq)]
pub struct Refusal {
    pub reason: Reason,
    pub position: usize,
}

impl Reason {
    pub fn at(self, position: usize) -> Refusal
        ensures { result ≡ refusal self position }
    {
        Refusal {
            reason: self,
            position,
        }
    }
}

impl From<Reason> for u8 {
    ghost from_gives = { λ reason number. number ≡ number_of reason };

    #[tactic(auto, unfolding(crate::specs::Refusals::number_of))]
    fn from(reason: Reason) -> u8 {
        reason as u8
    }
}

impl fmt::Display for Refusal {
    ghost output = { λ x. Some (refusal_text x) };

    fn fmt<W: fmt::Write>(&self, f: &mut fmt::Formatter<W>) -> fmt::Result {
        let number = u8::from(self.reason);
        let position = self.position;
        write!(f, "refused {number} {position}")
    }
}
