// The register record lent as its fifteen words, for the entries that are archives of their own.
ghost use Rattle.std.specs.Prelude.{◌≡◌};
ghost use Rattle.trap.specs.Trapped.{registers, call_of};

use machine::exchange::{Call, Words};
use machine::register;

// The call that they say.
pub fn asked(lent: &[u16; register::WORDS]) -> Call
    ensures { result ≡ call_of (registers lent.now) }
{
    Call {
        number: lent[register::CALL],
        a: lent[register::A],
        b: lent[register::B],
        words: Words {
            w0: lent[register::W0],
            w1: lent[register::W1],
            w2: lent[register::W2],
            w3: lent[register::W3],
        },
    }
}
