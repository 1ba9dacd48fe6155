// One message to one module. Nothing is written before the whole reply is known to fit.
ghost use Rattle.std.specs.Prelude.{◌≡◌};
ghost use Rattle.device.specs.Step.{links_after, if_sent, step_by, Comes, StepPromise};

use decide::rule::ruling_by;
use links::write::write;
use module::plan::Plan;
use module::state::Module;
use reply::due::Due;
use reply::send::{TooShort, send};
use results::Outcome;
use wire::kind::Message;
use wire::read::read;

// What a call answers: the reply's length and the module afterwards beside the outcome and the records read. A length, and no slice of the
// room that is lent, as `StepPromise` says a number and the whole room.
#[derive(Clone, Copy)]
pub struct Answer {
    pub outcome: Outcome,
    pub length: usize,
    pub read: usize,
    pub next: Module,
}

// Link memory, message and room stay three parameters, as the paper names them and C lends them.
pub fn step(m: Module, links: &mut [u8], message: &[u8], room: &mut [u8]) -> Answer
    ensures { StepPromise m links.old message.now room.old result links.new room.new }
{
    let heard = read(message, m.identity.address);
    serve(m, links, heard, room)
}

// The same of a message as it was read, for whoever reads once for several modules.
pub fn serve(m: Module, links: &mut [u8], heard: Message, room: &mut [u8]) -> Answer
    ensures { Comes (step_by m links.old heard room.old) result links.new room.new }
{
    let ruling = ruling_by(m, links, heard);
    let decided = ruling.plan;
    let sent = send(room, m.identity.address, links, decided.due);
    let plan = if_sent(sent, decided);
    write_planned(links, heard.data, plan);
    Answer {
        outcome: plan.outcome,
        length: sent.unwrap_or(0),
        read: ruling.read,
        next: m.apply(plan.change),
    }
}

// Where the reply did not fit, what was decided comes to result 5, and nothing is altered.
fn if_sent(sent: Result<usize, TooShort>, decided: Plan) -> Plan
    ensures { result ≡ if_sent sent decided }
{
    match sent {
        Ok(_) => decided,
        Err(_) => Plan::refused(Outcome::NoRoom, Due::Nothing),
    }
}

// The one place that alters link memory. The bytes of a write are those from Data 6 on.
fn write_planned(links: &mut [u8], data: [u8; 14], plan: Plan)
    ensures { links.new ≡ links_after links.old «data» plan.writing }
{
    if let Some(planned) = plan.writing {
        let n = planned.count;
        if n <= 8 {
            write(links, planned.index, &data[5..5 + n]);
        }
    }
}
