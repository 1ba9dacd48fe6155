// The call to a class for C, Rust and Python, as `dreelish.h` in the crate `embed` declares it: the function of `embed_class`, with its very
// clauses. Once more, as no crate can stand on a static library.
#![tactic(auto)]

ghost use Rattle.image.specs.Returned.{Returns};
ghost use Rattle.embed_class.specs.ClassCall.{class_returned_of};

#[unsafe(no_mangle)]
pub extern "C" fn dreelish_class_step(
    images: &mut [u8],
    count: usize,
    links: &mut [u8],
    message: &[u8],
    room: &mut [u8],
    report: &mut [u64],
) -> u64
    ensures { Returns (class_returned_of images.old count links.old message.now room.old report.old)
        result images.new links.new room.new report.new }
{
    embed_class::call::dreelish_class_step(images, count, links, message, room, report)
}
