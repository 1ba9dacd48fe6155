// How many frames there were, by result and by seat.
use crate::line::RESULTS;
use std::fmt;

#[derive(Clone, Copy)]
pub struct Tally {
    // By the paper's number.
    pub results: [u64; 12],
    // Of a class: for each of sixteen seats, for every seat, and for nobody.
    pub seats: [u64; 16],
    pub every: u64,
    pub nobody: u64,
}

// So many results as there are counts, a line each: nine of a module alone, twelve of a class.
#[derive(Clone, Copy)]
pub struct ByResult<'a>(pub &'a [u64]);

impl fmt::Display for ByResult<'_> {
    fn fmt<W: fmt::Write>(&self, f: &mut fmt::Formatter<W>) -> fmt::Result {
        for (result, count) in RESULTS.iter().zip(self.0) {
            writeln!(f, "{result}: {count}")?;
        }
        Ok(())
    }
}

// So many seats as there are counts, a line each, and a line for the frames that were for every seat.
#[derive(Clone, Copy)]
pub struct BySeat<'a> {
    pub seats: &'a [u64],
    pub every: u64,
}

impl fmt::Display for BySeat<'_> {
    fn fmt<W: fmt::Write>(&self, f: &mut fmt::Formatter<W>) -> fmt::Result {
        for (seat, count) in (1u64..).zip(self.seats) {
            writeln!(f, "seat {seat}: {count}")?;
        }
        let every = self.every;
        writeln!(f, "every seat: {every}")
    }
}
