// Bytes from files, each read behind those that are there.
ghost use Rattle.std.specs.Prelude.{◌≡◌, ◌<◌, length, take, IfSome, IfOk};
ghost use Rattle.io.specs.Counts.{IsPrefixLen};
ghost use Rattle.desk.specs.Input.{Grown};

use crate::said::say_failed;
use std::fs::File;
use std::io::{Error, ErrorKind, Read};

// How many bytes are there after a read, or none where no more come.
pub(crate) fn read_behind<R: Read>(
    from: &mut R,
    bytes: &mut [u8],
    n: usize,
) -> Result<Option<usize>, Error>
    requires { n < length bytes.old }
    ensures grown { Grown n (length bytes.old) result }
    ensures bytes_unchanged { take n bytes.new ≡ take n bytes.old }
{
    match from.read(&mut bytes[n..])? {
        0 => Ok(None),
        more => Ok(Some(n + more)),
    }
}

// How long a file is, as far as there is room; where it is missing and not needed, 0 ("The program"). What goes wrong is said, and
// nothing is returned.
pub(crate) fn load(rt: HostRuntime, name: &str, is_needed: bool, bytes: &mut [u8]) -> Option<usize>
    ensures { IfSome result (λ size. IsPrefixLen size bytes.new) }
{
    match File::open(&rt, name) {
        Ok(mut file) => fill(rt, name, &mut file, bytes),
        Err(error) => {
            if (error.kind() == ErrorKind::NotFound) & !is_needed {
                return Some(0);
            }
            say_failed(rt, name, error);
            None
        }
    }
}

fn fill(rt: HostRuntime, name: &str, file: &mut File, memory: &mut [u8]) -> Option<usize>
    ensures { IfSome result (λ size. IsPrefixLen size memory.new) }
{
    let mut n: usize = 0;
    // no `for`: each read brings as many bytes as it likes, and the last one ends it
    while n < memory.len() {
        match read_behind(file, memory, n) {
            Ok(Some(k)) => n = k,
            Ok(None) => return Some(n),
            Err(error) => {
                say_failed(rt, name, error);
                return None;
            }
        }
    }
    Some(n)
}
