// The cases, and how many of their lines were compared and came out otherwise.
use crate::compare::Mismatch;
use crate::text::bare;
use arrayvec::ArrayVec;
use std::fmt;

#[derive(Drop)]
pub(crate) struct Tally {
    // the line that began the case; none where it is longer
    title: ArrayVec<u8, 160>,
    cases: u64,
    compared: u64,
    differ: u64,
}

impl Tally {
    pub(crate) fn new() -> Tally {
        Tally {
            title: ArrayVec::new(),
            cases: 0,
            compared: 0,
            differ: 0,
        }
    }

    pub(crate) fn begin(&mut self, line: &[u8]) {
        self.title.clear();
        let _ = self.title.try_extend_from_slice(bare(line));
        self.cases = self.cases.wrapping_add(1);
    }

    pub(crate) fn count(
        &mut self,
        rt: HostRuntime,
        line: &[u8],
        outcome: Result<(), Mismatch<'_>>,
    ) {
        self.compared = self.compared.wrapping_add(1);
        if let Err(mismatch) = outcome {
            self.differ = self.differ.wrapping_add(1);
            let _ = rt.write_all(self.title.as_slice());
            let _ = print!(rt; " | ");
            let _ = rt.write_all(bare(line));
            let _ = println!(rt; " | {mismatch}");
        }
    }
}

impl fmt::Display for Tally {
    fn fmt<W: fmt::Write>(&self, f: &mut fmt::Formatter<W>) -> fmt::Result {
        let cases = self.cases;
        let compared = self.compared;
        let differ = self.differ;
        write!(f, "{cases} cases, {compared} compared, {differ} differ")
    }
}
