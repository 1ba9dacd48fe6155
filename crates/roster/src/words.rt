// The words of a line, parted by blanks and tabs; and where the line ends before its comment.
ghost use Rattle.std.specs.Prelude.{◌≡◌, ◌<◌, ◌≤◌, length, position, IfSome};
ghost use Rattle.roster.specs.Words.{is_blank, is_ink, bare_length, word_start, word_end};

// What stands behind `#` is not read, and neither is the 0D that some editors write before 0A.
#[tactic(auto, using(crate::proofs::Places::search_steps), unfolding(crate::specs::Words::bare_length))]
pub(crate) fn bare_length(line: &[u8]) -> usize
    ensures { result ≡ bare_length line.now }
{
    for (k, x) in line.iter().enumerate() {
        if (*x == b'#') | ((k + 1 == line.len()) & (*x == b'\r')) {
            return k;
        }
    }
    line.len()
}

// Where the next word begins, or the line's length where there is none. This, `word_end` and `line_end` stay three: one function over what
// is sought would say in clauses, before all else, that it may be called of every byte and what it answers of each; here that is `position`.
#[tactic(auto, using(crate::proofs::Parted::first_ink))]
pub(crate) fn word_start(line: &[u8], at: usize) -> usize
    requires { at ≤ length line.now }
    ensures { result ≡ word_start line.now at }
{
    let behind = &line[at..];
    at + first_ink(behind).unwrap_or(behind.len())
}

fn first_ink(line: &[u8]) -> Option<usize>
    ensures value { result ≡ position is_ink line.now }
    ensures upper_bound { IfSome result (λ n. n < length line.now) }
{
    line.iter().position(|x| !is_blank(*x))
}

#[tactic(auto, using(crate::proofs::Parted::first_blank))]
pub(crate) fn word_end(line: &[u8], start: usize) -> usize
    requires { start ≤ length line.now }
    ensures { result ≡ word_end line.now start }
{
    let behind = &line[start..];
    start + first_blank(behind).unwrap_or(behind.len())
}

fn first_blank(line: &[u8]) -> Option<usize>
    ensures value { result ≡ position is_blank line.now }
    ensures upper_bound { IfSome result (λ n. n < length line.now) }
{
    line.iter().position(|x| is_blank(*x))
}

fn is_blank(x: u8) -> bool
    ensures { result ≡ is_blank x }
{
    (x == b' ') | (x == b'\t')
}
