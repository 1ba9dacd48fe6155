// Text laid behind what is laid already, in a buffer that is lent. A piece that no longer fits whole is left out.
#![tactic(auto)]

ghost use Rattle.std.specs.Prelude.{◌≡◌};
ghost use Rattle.io.specs.Counts.{IsPrefixLen};
ghost use Rattle.letters.specs.Page.{cut_at};
ghost use Rattle.letters.specs.Laid.{laid_in, laid_behind, Begins, Lays};

use std::fmt;
use std::fmt::Write;
use std::marker::Model;

// Bytes behind the first `at` of a line, or behind all of it where it has fewer; how many are laid then. A line refuses none: where they no
// longer fit whole they are left out.
#[tactic(auto, using(crate::proofs::Behind::put_grown, crate::proofs::Behind::put_left))]
pub fn put(line: &mut [u8], at: usize, bytes: &[u8]) -> usize
    ensures within { IsPrefixLen result line.new }
    ensures laid { cut_at result line.new ≡ laid_behind (cut_at at line.old) bytes.now }
{
    let from = at.min(line.len());
    if line.len() - from < bytes.len() {
        return from;
    }
    basis::lay(&mut line[from..], bytes);
    from + bytes.len()
}

// The same of what a value prints, piece by piece.
pub fn put_text<T: fmt::Display + Drop>(line: &mut [u8], at: usize, text: T) -> usize
    ensures { IsPrefixLen result line.new }
{
    let from = at.min(line.len());
    let mut behind = Line::new(&mut line[from..]);
    let _ = write!(behind, "{text}");
    let more = behind.laid().len();
    // never less: but `Display` promises no length
    from + more.min(line.len() - from)
}

#[derive(Drop)]
pub struct Line<'a> {
    bytes: &'a mut [u8],
    len: usize,
}

impl<'a> Model for Line<'a> {
    ghost use Rattle.std.specs.Prelude.{◌≤◌, length};
    ghost use Rattle.letters.specs.Page.{Page, cut_at};

    ghost Value = { Page };

    ghost view = { λ a. cut_at a.len a.bytes.now };

    ghost invariant = { λ a. a.len ≤ length a.bytes.now };
}

impl<'a> Line<'a> {
    // Nothing is laid yet.
    pub fn new(bytes: &'a mut [u8]) -> Line<'a>
        ensures { Begins bytes.old result }
    {
        Line { bytes, len: 0 }
    }

    // What is laid.
    pub fn laid(&self) -> &[u8]
        ensures { result.now ≡ laid_in self.now }
    {
        &self.bytes[..self.len]
    }
}

// No piece is refused: what comes behind one that is left out is laid where it fits.
impl fmt::Write for Line<'_> {
    ghost use Rattle.std.specs.Prelude.{IsOk};

    ghost write_str_gives = { Lays };

    fn write_str(&mut self, text: &str) -> fmt::Result
        ensures ok { IsOk result → Lays self.old text.now self.new }
        ensures taken { IsOk result }
    {
        self.len = put(self.bytes, self.len, text.as_bytes());
        Ok(())
    }
}

// A space and the two digits of each byte, one behind the other.
const SHOWN: &str = " 00 01 02 03 04 05 06 07 08 09 0A 0B 0C 0D 0E 0F \
     10 11 12 13 14 15 16 17 18 19 1A 1B 1C 1D 1E 1F \
     20 21 22 23 24 25 26 27 28 29 2A 2B 2C 2D 2E 2F \
     30 31 32 33 34 35 36 37 38 39 3A 3B 3C 3D 3E 3F \
     40 41 42 43 44 45 46 47 48 49 4A 4B 4C 4D 4E 4F \
     50 51 52 53 54 55 56 57 58 59 5A 5B 5C 5D 5E 5F \
     60 61 62 63 64 65 66 67 68 69 6A 6B 6C 6D 6E 6F \
     70 71 72 73 74 75 76 77 78 79 7A 7B 7C 7D 7E 7F \
     80 81 82 83 84 85 86 87 88 89 8A 8B 8C 8D 8E 8F \
     90 91 92 93 94 95 96 97 98 99 9A 9B 9C 9D 9E 9F \
     A0 A1 A2 A3 A4 A5 A6 A7 A8 A9 AA AB AC AD AE AF \
     B0 B1 B2 B3 B4 B5 B6 B7 B8 B9 BA BB BC BD BE BF \
     C0 C1 C2 C3 C4 C5 C6 C7 C8 C9 CA CB CC CD CE CF \
     D0 D1 D2 D3 D4 D5 D6 D7 D8 D9 DA DB DC DD DE DF \
     E0 E1 E2 E3 E4 E5 E6 E7 E8 E9 EA EB EC ED EE EF \
     F0 F1 F2 F3 F4 F5 F6 F7 F8 F9 FA FB FC FD FE FF";

// Bytes, each behind a space and by its two digits.
#[derive(Clone, Copy)]
pub struct Hex<'a>(pub &'a [u8]);

impl fmt::Display for Hex<'_> {
    fn fmt<W: fmt::Write>(&self, f: &mut fmt::Formatter<W>) -> fmt::Result {
        for byte in self.0 {
            let at = 3 * usize::from(*byte);
            f.write_str(SHOWN.get(at..at + 3).unwrap_or(""))?;
        }
        Ok(())
    }
}
