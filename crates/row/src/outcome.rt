// What became of a message to the class: a module's own outcome, or one of the row's.
ghost use Rattle.std.specs.Prelude.{◌≡◌};
ghost use Rattle.row.specs.Answer.{joined};

use results::Outcome;

#[derive(Clone, Copy)]
pub enum ClassOutcome {
    Single(Outcome),
    Doubled,
    NoSeat,
    Unfit,
}

impl ClassOutcome {
    // Done where any seat acted.
    #[tactic(auto, unfolding(basis::specs::Choice::choose))]
    pub fn joined(self, own: Outcome) -> ClassOutcome
        ensures { result ≡ joined self own }
    {
        match own {
            Outcome::Done => ClassOutcome::Single(Outcome::Done),
            _ => self,
        }
    }
}

// The paper's number.
impl From<ClassOutcome> for u8 {
    ghost use Rattle.std.specs.Prelude.{◌≡◌};
    ghost use Rattle.row.specs.Number.{class_number_of};

    ghost from_gives = { λ outcome number. number ≡ class_number_of outcome };

    fn from(outcome: ClassOutcome) -> u8 {
        match outcome {
            ClassOutcome::Single(single) => u8::from(single),
            ClassOutcome::Doubled => 9,
            ClassOutcome::NoSeat => 10,
            ClassOutcome::Unfit => 11,
        }
    }
}
