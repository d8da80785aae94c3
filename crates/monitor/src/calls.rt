// Which function serves which call.
ghost use Rattle.std.specs.Prelude.{◌≡◌};
ghost use Rattle.machine.specs.Numbers.{call_list};
ghost use Rattle.machine.specs.Exchange.{words_in};
ghost use Rattle.machine.specs.Legal.{Legal};
ghost use Rattle.table.specs.Promise.{Can};
ghost use Rattle.answers.specs.Promise.{answer_in, walk_in, Answers};

use answers::{Walked, quiet};
use machine::call;
use machine::exchange::Call;
use machine::refusal::Refusal;
use processes::{semaphores, waits};

// Any call but a listing's, which wants a room: 01 to 05, 0C and 0D are made by current, 06 to 0A by anyone, and no others there are.
pub fn serve(t: &mut [u16], call: Call) -> Result<Walked, Refusal>
    requires { Can t.old Legal × (call.number ≡ call_list → ⊥) }
    ensures { Answers t.old t.new call.number call.a call.b (words_in call.words) (answer_in result) (walk_in result) }
{
    match call.number {
        call::SEND => messages::send(t, call.a, call.words),
        call::WAIT_ANSWER => quiet(waits::wait_answer(t, call.a)),
        call::WAIT_EVENT => quiet(waits::wait_event(t, call.a)),
        call::SEND_ANSWER => messages::send_answer(t, call.a, call.words),
        call::WAIT_INTERRUPT => quiet(waits::wait_interrupt(t, call.a, call.b)),
        call::START => processes::start(t, call.a),
        call::STOP => quiet(processes::stop(t, call.a)),
        call::CLEAN => clean::clean(t, call.a),
        call::TICK => Ok(clock::tick(t)),
        call::INTERRUPT => waits::interrupt(t, call.a),
        call::LOWER => quiet(semaphores::lower(t, call.a)),
        call::RAISE => semaphores::raise(t, call.a),
        _ => Err(Refusal::NoSuchCall),
    }
}
