// The monitor: layout, the calls 01 to 0D, and the one entry that takes them all.
#![tactic(auto)]

mod calls;

ghost use Rattle.machine.specs.Exchange.{words_in, said};
ghost use Rattle.machine.specs.Sound.{Sound};
ghost use Rattle.answers.specs.Promise.{walk_of, answer_in, walk_in};
ghost use Rattle.monitor.specs.Promise.{Called, CalledWalked, LaidOut};

use answers::Walked;
use machine::call;
use machine::exchange::{Answer, Call};
use machine::refusal::Refusal;

// The table is laid out by the list, five words a process, in that edition, with a semaphore for each of the counters.
pub fn layout(list: &[u16], edition: u16, counters: &[u16], table: &mut [u16]) -> Answer
    ensures { LaidOut list.now edition counters.now table.old table.new (said result) }
{
    if let Err(refusal) = layout::refusal(list, edition, counters, table.len()) {
        return answers::refused(u16::from(refusal));
    }
    layout::lay(list, edition, counters, table);
    answers::zero_answer()
}

// A call on words that are known to be a sound table, answered or refused; they aren't looked over.
fn answered(table: &mut [u16], room: &mut [u16], call: Call) -> Result<Walked, Refusal>
    requires { Sound table.old }
    ensures { CalledWalked table.old table.new room.old room.new call.number call.a call.b (words_in call.words)
        (answer_in result) (walk_in result) }
{
    if call.number == call::LIST {
        return answers::quiet(listing::list(table, room, call.a));
    }
    calls::serve(table, call)
}

// A call on words that are known to be a sound table, done or refused. How far those who entered the running queue by it walked is told too.
pub fn serve_walked(table: &mut [u16], room: &mut [u16], call: Call) -> Walked
    requires { Sound table.old }
    ensures { CalledWalked table.old table.new room.old room.new call.number call.a call.b (words_in call.words)
        (said result.answer) (walk_of result.walk) }
{
    answers::settled(answered(table, room, call))
}

// Any call on any words lent as a table: done, or refused with its number and nothing changed; and how far it walked.
pub fn call_walked(table: &mut [u16], room: &mut [u16], call: Call) -> Walked
    ensures { CalledWalked table.old table.new room.old room.new call.number call.a call.b (words_in call.words)
        (said result.answer) (walk_of result.walk) }
{
    let unknown = answers::outside(call.number, call::LAST);
    if unknown {
        return answers::still(answers::refused(u16::from(Refusal::NoSuchCall)));
    }
    if !sound::sound(table) {
        return answers::still(answers::refused(u16::from(Refusal::TableNotSound)));
    }
    serve_walked(table, room, call)
}

// Any call on any words, without the walk.
pub fn call(table: &mut [u16], room: &mut [u16], call: Call) -> Answer
    ensures { Called table.old table.new room.old room.new call.number call.a call.b (words_in call.words) (said result) }
{
    call_walked(table, room, call).answer
}

// A call on words that are known to be a sound table, without the walk.
pub fn serve(table: &mut [u16], room: &mut [u16], call: Call) -> Answer
    requires { Sound table.old }
    ensures { Called table.old table.new room.old room.new call.number call.a call.b (words_in call.words) (said result) }
{
    serve_walked(table, room, call).answer
}
