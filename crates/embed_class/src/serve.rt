// A message to the row: whom it is for is decided by addresses alone, and only who is served is read out of its image.
ghost use Rattle.std.specs.Prelude.{◌≡◌, true, ◌+◌, ◌*◌, ◌≤◌, length};
ghost use Rattle.class.specs.Class.{class_of};
ghost use Rattle.image.specs.Places.{LENGTH};
ghost use Rattle.image.specs.Image.{is_image};
ghost use Rattle.embed_class.specs.Row.{image_in, is_row, row_of};
ghost use Rattle.embed_class.specs.Serve.{is_for_all, SeatComes, RowComes};

use crate::strip::names_of;
use device::step::{Answer, serve};
use image::held::held_in;
use image::places::LENGTH;
use image::store::store;
use row::progress::{ClassAnswer, Round};
use row::settle::noticed;
use wire::kind::Message;
use wire::read::hear;

#[tactic(auto, using(crate::proofs::Started::row_steps))]
pub(crate) fn serve_row(
    images: &mut [u8],
    count: usize,
    links: &mut [u8],
    message: &[u8],
    room: &mut [u8],
) -> ClassAnswer
    requires images_value { is_row count images.old ≡ true }
    requires count_bound { count ≤ 16 }
    ensures { RowComes images.old
        (class_of (row_of count images.old) links.old message.now room.old)
        result images.new links.new room.new }
{
    let (each, _) = images.as_chunks::<LENGTH>();
    let names = names_of(each);
    let heard = hear(message);
    let t = noticed(names, count, links.len(), heard);
    let mut answer = t.answer;
    // One call for both rounds, so that a compiler serves each seat in place.
    for seat in t.seat..count {
        let own = serve_seat(images, seat, t.task.share, links, heard, room);
        if !is_for_all(t.round) {
            return ClassAnswer::of_seat(seat, own.outcome, own.length, own.read);
        }
        answer = answer.and_seat(own.outcome, answer.read + own.read);
    }
    answer
}

fn is_for_all(round: Round) -> bool
    ensures { result ≡ is_for_all round }
{
    matches!(round, Round::All)
}

// One seat, with its own image and its own share.
#[tactic(auto, using(class::proofs::Shared::between), unfolding(image::specs::Image::held_in, basis::specs::Choice::choose))]
fn serve_seat(
    images: &mut [u8],
    seat: usize,
    share: usize,
    links: &mut [u8],
    heard: Message,
    room: &mut [u8],
) -> Answer
    requires seat_in_bounds { seat * LENGTH + LENGTH ≤ length images.old }
    requires share_in_bounds { seat * share + share ≤ length links.old }
    requires image { is_image (image_in seat images.old) ≡ true }
    ensures { SeatComes share seat images.old links.old heard room.old
        result images.new links.new room.new }
{
    let at = seat * LENGTH;
    let end = at + LENGTH;
    let Some(m) = held_in(&images[at..end]) else {
        unreachable!()
    };
    let from = seat * share;
    let behind = from + share;
    let a = serve(m, &mut links[from..behind], heard, room);
    store(&mut images[at..end], a.next);
    a
}
