// One message to the module that an image holds.
ghost use Rattle.image.specs.Returned.{Returns};
ghost use Rattle.embed.specs.Call.{returned_of};

use device::step::step;
use image::held::held_in;
use image::report::{UNFIT, tell};
use image::store::store;

pub fn dreelish_step(
    image: &mut [u8],
    links: &mut [u8],
    message: &[u8],
    room: &mut [u8],
    report: &mut [u64],
) -> u64
    ensures { Returns (returned_of image.old links.old message.now room.old report.old)
        result image.new links.new room.new report.new }
{
    let Some(m) = held_in(image) else {
        return UNFIT;
    };
    if report.len() < 2 {
        return UNFIT;
    }
    let answer = step(m, links, message, room);
    store(image, answer.next);
    tell(report, answer.length, answer.read);
    u64::from(u8::from(answer.outcome))
}
