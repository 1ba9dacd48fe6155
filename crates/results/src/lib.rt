// What became of a message ("Result numbers").
#![tactic(auto)]

// No Result: the paper numbers all of them as results, and `number_of` goes by its list.
#[derive(Clone, Copy)]
pub enum Outcome {
    Done,
    BadLength,
    BadMemory,
    Foreign,
    BadSum,
    NoRoom,
    NotLinked,
    Unlisted,
    Unconcerned,
}

// The paper's number.
impl From<Outcome> for u8 {
    ghost use Rattle.std.specs.Prelude.{◌≡◌};
    ghost use Rattle.results.specs.Number.{number_of};

    ghost from_gives = { λ outcome number. number ≡ number_of outcome };

    fn from(outcome: Outcome) -> u8 {
        match outcome {
            Outcome::Done => 0,
            Outcome::BadLength => 1,
            Outcome::BadMemory => 2,
            Outcome::Foreign => 3,
            Outcome::BadSum => 4,
            Outcome::NoRoom => 5,
            Outcome::NotLinked => 6,
            Outcome::Unlisted => 7,
            Outcome::Unconcerned => 8,
        }
    }
}
