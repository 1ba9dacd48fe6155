// How many frames had each result, and in a class how many were for each seat.
use seating::heed::Seating;
use std::fmt;
use text::tally::{ByResult, BySeat, Tally};

#[derive(Clone, Copy)]
pub struct Counts<'a> {
    pub seating: &'a Seating,
    pub tally: &'a Tally,
}

// A module alone has nine results, a class has twelve. Over sixteen nobody is served, and no seat is listed.
impl fmt::Display for Counts<'_> {
    fn fmt<W: fmt::Write>(&self, f: &mut fmt::Formatter<W>) -> fmt::Result {
        let results = &self.tally.results;
        match self.seating {
            Seating::Alone(_) => {
                let alone = ByResult(&results[..9]);
                write!(f, "{alone}")
            }
            Seating::Class { count, .. } => {
                let by_result = ByResult(results);
                let by_seat = BySeat {
                    seats: self.tally.seats.get(..*count).unwrap_or(&[]),
                    every: self.tally.every,
                };
                write!(f, "{by_result}{by_seat}")
            }
        }
    }
}
