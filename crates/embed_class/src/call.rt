// One message to the class whose modules the images hold.
ghost use Rattle.image.specs.Returned.{Returns};
ghost use Rattle.embed_class.specs.ClassCall.{class_returned_of};

use crate::serve::serve_row;
use crate::strip::is_row;
use image::report::{UNFIT, tell};
use row::outcome::ClassOutcome;

#[tactic(auto, using(crate::proofs::ClassServed::call_steps))]
pub fn dreelish_class_step(
    images: &mut [u8],
    count: usize,
    links: &mut [u8],
    message: &[u8],
    room: &mut [u8],
    report: &mut [u64],
) -> u64
    ensures { Returns (class_returned_of images.old count links.old message.now room.old report.old)
        result images.new links.new room.new report.new }
{
    if !is_row(images, count) {
        return UNFIT;
    }
    if report.len() < 2 {
        return UNFIT;
    }
    if 16 < count {
        tell(report, 0, 0);
        return u64::from(u8::from(ClassOutcome::Unfit));
    }
    let answer = serve_row(images, count, links, message, room);
    tell(report, answer.length, answer.read);
    u64::from(u8::from(answer.outcome))
}
