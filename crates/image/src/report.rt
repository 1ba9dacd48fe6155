// What a caller learns beside the result number: the reply's length and the records read.
ghost use Rattle.std.specs.Prelude.{◌≡◌, [], ◌∷◌};
ghost use Rattle.basis.specs.Laid.{laid_if_fits};

// The number of images or a report that do not fit: a number, as all that the calls give, since C reads it.
pub const UNFIT: u64 = 255;

// A report shorter than two numbers is left as it is. By `as`, as std has no `From` between the two types, and `try_from` an error that
// cannot arise.
#[tactic(auto, using(basis::proofs::Laid::fits), unfolding(basis::specs::Laid::laid_if_fits, basis::specs::Choice::choose))]
pub fn tell(report: &mut [u64], sent: usize, read: usize)
    ensures { report.new ≡ laid_if_fits report.old (sent ∷ read ∷ []) }
{
    if report.len() < 2 {
        return;
    }
    report[0] = sent as u64;
    report[1] = read as u64;
}
