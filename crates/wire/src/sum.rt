// The checksum of an extended message, as the blackboard has it: add up the whole column ("Message bytes").
ghost use Rattle.std.specs.Prelude.{◌≡◌, ◌<◌, ◌^◌, length};
ghost use Rattle.wire.specs.Checksum.{sum_of, is_sum_right, is_exempt};

// What is added is the whole column, Command 1 through Data 14. The sender chose Data 14 so that it comes to a multiple of 256: where
// something is left over, a byte was altered on its way, or the sender added wrongly.
pub(crate) fn is_sum_right(message: &[u8]) -> bool
    requires { length message.now ≡ 23 }
    ensures { result ≡ is_sum_right message.now }
{
    sum_of(&message[7..]) % 256 == 0
}

fn sum_of(column: &[u8]) -> usize
    requires { length column.now < 2 ^ 32 }
    ensures { result ≡ sum_of column.now }
{
    column.iter().map(|&byte| usize::from(byte)).sum()
}

// Get Properties and Get Database, which the captures send with 00 for a checksum.
pub(crate) fn is_exempt(message: &[u8]) -> bool
    requires { length message.now ≡ 23 }
    ensures { result ≡ is_exempt message.now }
{
    let command1 = message[7];
    ((command1 == 0x2e) | (command1 == 0x2f)) & (message[10] == 0)
}
