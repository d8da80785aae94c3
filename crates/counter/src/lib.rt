// A semaphore's counter: a signed 16-bit number, kept as a word.
#![tactic(auto)]

ghost use Rattle.std.specs.Prelude.{◌≡◌};
ghost use Rattle.std.specs.Int.{w16};
ghost use Rattle.std.proofs.Common.{to_z, of_z};
ghost use Rattle.machine.specs.Numbers.{most_counter, counter_below_zero};
ghost use Rattle.machine.specs.Machine.{below_zero, up, down};
ghost use Rattle.counter.specs.Counter.{waiting, waiting_is};

use machine::semaphore;

// The number that a word holds. A cast asks that the value fits, so a word from 32,768 on is turned by hand.
fn signed(word: u16) -> i16
    ensures { result ≡ to_z w16 word }
{
    if word < semaphore::BELOW_ZERO {
        word as i16
    } else {
        let rest = (65535 - word) as i16;
        -1 - rest
    }
}

// The word that holds a number.
fn word_of(counter: i16) -> u16
    ensures { result ≡ of_z w16 counter }
{
    if counter < 0 {
        let rest = -1 - counter;
        65535 - (rest as u16)
    } else {
        counter as u16
    }
}

// One taken off.
pub fn lower(word: u16) -> u16
    requires { word ≡ counter_below_zero → ⊥ }
    ensures { result ≡ down word }
{
    word_of(signed(word) - 1)
}

// One added.
pub fn raise(word: u16) -> u16
    requires { word ≡ most_counter → ⊥ }
    ensures { result ≡ up word }
{
    word_of(signed(word) + 1)
}

// Whether it is below zero.
pub fn below_zero(word: u16) -> bool
    ensures { result ≡ below_zero word }
{
    signed(word) < 0
}

// The number waiting: minus the counter where it is below zero, otherwise nobody. The lowest counter, minus more than a 16-bit number, is no table's.
pub fn waiting(word: u16) -> u16
    requires { word ≡ counter_below_zero → ⊥ }
    ensures { result ≡ waiting word }
{
    if !below_zero(word) {
        return 0;
    }
    (-signed(word)) as u16
}

// Whether n is the number waiting.
pub fn waiting_is(word: u16, n: u16) -> bool
    ensures { result ≡ waiting_is word n }
{
    if word == semaphore::BELOW_ZERO {
        return false;
    }
    n == waiting(word)
}
