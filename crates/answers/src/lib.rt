// The answer of a call, the ways to make one, and the test that many refusals share.
#![tactic(auto)]

ghost use Rattle.std.specs.Prelude.{◌≡◌};
ghost use Rattle.machine.specs.Exchange.{words_in, said, replied};
ghost use Rattle.machine.specs.Machine.{zeros};
ghost use Rattle.machine.specs.Refusal.{outside};
ghost use Rattle.machine.specs.Step.{refused, zero_answer, done};
ghost use Rattle.table.specs.Promise.{Can, Gives};
ghost use Rattle.table.specs.Fits.{Any};
ghost use Rattle.machine.specs.Walk.{nowhere};
ghost use Rattle.answers.specs.Promise.{walk_of, walk_to, answer_in, walk_in, Roomy, Walks};

use machine::exchange::{Answer, Words, ZEROS};
use machine::refusal::{DONE, Refusal};
use table::running;

// Refused: the number and zeros.
pub fn refused(number: u16) -> Answer
    ensures { said result ≡ refused number }
{
    Answer {
        number,
        kind: 0,
        buffer: 0,
        current: 0,
        words: ZEROS,
    }
}

// Zeros: the answer of an accepted layout.
pub fn zero_answer() -> Answer
    ensures { said result ≡ zero_answer }
{
    refused(DONE)
}

// Accepted: with the process that is current now.
pub fn done(t: &[u16], kind: u16, buffer: u16, words: Words) -> Answer
    requires { Can t.now Any }
    ensures { Gives t.now Any (λ m. (done kind buffer (words_in words) m).answer) (said result) }
{
    Answer {
        number: DONE,
        kind,
        buffer,
        current: running::current(t),
        words,
    }
}

// Accepted, with nothing but current.
pub fn plainly(t: &[u16]) -> Answer
    requires { Can t.now Any }
    ensures { Gives t.now Any (λ m. (done 0 0 zeros m).answer) (said result) }
{
    done(t, 0, 0, ZEROS)
}

// x is not in 1 to n.
pub fn outside(x: u16, n: u16) -> bool
    ensures { result ≡ outside x n }
{
    (x == 0) | (n < x)
}

// The separate answer of a call: how many processes entered the running queue by a wake or a start, the records that they passed together, the most that
// one passed, and those passed by the move of a tick.
#[derive(Clone, Copy)]
pub struct Walk {
    pub entries: u16,
    pub passed: u16,
    pub most: u16,
    pub moved: u16,
}

// A call's two answers.
#[derive(Clone, Copy)]
pub struct Walked {
    pub answer: Answer,
    pub walk: Walk,
}

// Nobody entered.
pub fn nowhere() -> Walk
    ensures { walk_of result ≡ nowhere }
{
    Walk {
        entries: 0,
        passed: 0,
        most: 0,
        moved: 0,
    }
}

// One entry more, to that position in the running queue, from 1: it passed one record fewer. Position 0: nobody entered.
pub fn walk_to(walk: Walk, position: u16) -> Walk
    requires { Roomy (walk_of walk) position }
    ensures { walk_of result ≡ walk_to position (walk_of walk) }
{
    if position == 0 {
        return walk;
    }
    let passed = position - 1;
    Walk {
        entries: walk.entries + 1,
        passed: walk.passed + passed,
        most: walk.most.max(passed),
        moved: walk.moved,
    }
}

// An answer of a call by which nobody entered.
pub fn still(answer: Answer) -> Walked
    ensures { Walks (said answer) nowhere (said result.answer) (walk_of result.walk) }
{
    Walked {
        answer,
        walk: nowhere(),
    }
}

// An answer of a call by which one entered, to that position, or nobody.
pub fn entered(answer: Answer, position: u16) -> Walked
    ensures { Walks (said answer) (walk_to position nowhere) (said result.answer) (walk_of result.walk) }
{
    Walked {
        answer,
        walk: walk_to(nowhere(), position),
    }
}

// What a call came to by which nobody enters, answered or refused.
pub fn quiet(outcome: Result<Answer, Refusal>) -> Result<Walked, Refusal>
    ensures { Walks (replied outcome) nowhere (answer_in result) (walk_in result) }
{
    Ok(still(outcome?))
}

// What a call came to, in numbers: refused, it has the number of that, and nobody entered.
pub fn settled(outcome: Result<Walked, Refusal>) -> Walked
    ensures { Walks (answer_in outcome) (walk_in outcome) (said result.answer) (walk_of result.walk) }
{
    match outcome {
        Ok(walked) => walked,
        Err(refusal) => still(refused(u16::from(refusal))),
    }
}
