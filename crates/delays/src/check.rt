// Whether the links and differences are those of a list by time left that ends.
ghost use Rattle.std.specs.Prelude.{◌≡◌};
ghost use Rattle.delays.specs.Words.{P_of, Sized, may_follow, ordered};

use crate::words;

// x, with the difference c, may stand behind `before`, which ends at `time`: later, or then with a higher number. The
// first of all, behind 0, ends later than now.
fn may_follow(before: u16, time: u16, x: u16, c: u16) -> bool
    ensures { result ≡ may_follow before time x c }
{
    c <= words::LATEST - time && (1 <= c || (1 <= time && before < x))
}

// From the first on each may stand behind the one before it, and the list ends.
pub fn ordered(t: &[u16]) -> bool
    requires { Sized t.now }
    ensures { result ≡ ordered t.now (P_of t.now) 0 0 }
{
    let mut before: u16 = 0;
    let mut time: u16 = 0;
    for _ in 0..words::processes(t) {
        let x = words::next(t, before);
        if x == 0 {
            return true;
        }
        let c = words::difference(t, x);
        if !may_follow(before, time, x, c) {
            return false;
        }
        time += c;
        before = x;
    }
    words::next(t, before) == 0
}
