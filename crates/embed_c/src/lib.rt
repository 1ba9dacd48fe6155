// The call to one module for C, Rust and Python, as `dreelish.h` in the crate `embed` declares it: that crate's function,
// with its very clauses. Once more, as no crate can stand on a static library.
#![tactic(auto)]

ghost use Rattle.image.specs.Returned.{Returns};
ghost use Rattle.embed.specs.Call.{returned_of};

#[unsafe(no_mangle)]
pub extern "C" fn dreelish_step(
    image: &mut [u8],
    links: &mut [u8],
    message: &[u8],
    room: &mut [u8],
    report: &mut [u64],
) -> u64
    ensures { Returns (returned_of image.old links.old message.now room.old report.old)
        result image.new links.new room.new report.new }
{
    embed::call::dreelish_step(image, links, message, room, report)
}
