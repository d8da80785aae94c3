// A walk along two logs, a step at a time: over the whole lines that both begin with, or over a line of each.
ghost use Rattle.std.specs.Prelude.{◌≡◌, ◌+◌, ◌≤◌, ◌<◌, length};
ghost use Rattle.compare.specs.Promise.{Within, Advances};

use crate::{ends, first, front};

// A place in each log. Common lines are looked for again once no more than `until` bytes of the first log are left: not at every line, for
// where the logs differ much that would be in vain.
#[derive(Drop)]
pub struct Place {
    pub one: usize,
    pub two: usize,
    until: usize,
}

// Whether the lines passed are alike, and how many they are.
#[derive(Drop)]
pub struct Passed {
    pub alike: bool,
    pub lines: usize,
}

// A block less.
fn later(left: usize) -> usize {
    left.saturating_sub(front::BLOCK)
}

impl Place {
    // Where both logs begin.
    pub fn start(one: &[u8]) -> Self
        ensures { (result.one ≡ 0) × (result.two ≡ 0) }
    {
        Place {
            one: 0,
            two: 0,
            until: one.len(),
        }
    }

    // A step.
    pub fn step(&mut self, one: &[u8], two: &[u8]) -> Passed
        requires { Within one.now two.now self.old }
        ensures { Advances one.now two.now self.old self.new result }
    {
        let x = &one[self.one..];
        let y = &two[self.two..];
        if x.len() <= self.until {
            let k = front::front(x, y);
            self.until = later(x.len() - k);
            if 0 < k {
                self.one += k;
                self.two += k;
                return Passed {
                    alike: true,
                    lines: ends::ends(&x[..k]),
                };
            }
        }
        let pair = first::both(x, y);
        self.one += pair.one;
        self.two += pair.two;
        Passed {
            alike: pair.alike,
            lines: 1,
        }
    }
}
