// Names: each met once. A mark tells most names apart at once.
ghost use Rattle.std.specs.Prelude.{◌≡◌, true, ◌+◌, ◌*◌, ◌-◌, ◌<◌, ◌≤◌, length};
ghost use Rattle.machine.specs.Records.{process_base, process_width, process_name, process_second_name, process_third_name};
ghost use Rattle.machine.specs.Sound.{process_at};
ghost use Rattle.sound.specs.Names.{other_name, new_name, mark};

use machine::process;

// Process q has another name than x y z.
fn other_name(words: &[u16], x: u16, y: u16, z: u16, q: usize) -> bool
    requires { process_base + process_width * q + process_width ≤ length words.now }
    ensures { result ≡ other_name words.now x y z q }
{
    let start = process::BASE + process::WORDS * q;
    !((words[start + process::NAME] == x)
        & ((words[start + (process::NAME + 1)] == y) & (words[start + (process::NAME + 2)] == z)))
}

// The processes 1 to n have other names than x y z.
fn new_name(words: &[u16], n: usize, x: u16, y: u16, z: u16) -> bool
    requires { process_base + process_width * n + process_width ≤ length words.now }
    ensures { result ≡ new_name words.now n x y z }
{
    for q in 0..n {
        if !other_name(words, x, y, z, q + 1) {
            return false;
        }
    }
    true
}

// A number below 256 for the name of process p.
pub fn mark(words: &[u16], p: usize) -> usize
    requires { process_base + process_width * p + process_width ≤ length words.now }
    ensures { (result ≡ mark (process_at words.now p process_name) (process_at words.now p process_second_name) (process_at words.now p process_third_name)) ×
        (result < 256) }
{
    let start = process::BASE + process::WORDS * p;
    spread(
        words[start + process::NAME],
        words[start + (process::NAME + 1)],
        words[start + (process::NAME + 2)],
    )
}

// A number below 256 for a name.
fn spread(x: u16, y: u16, z: u16) -> usize
    ensures { (result ≡ mark x y z) × (result < 256) }
{
    ((x as usize) * 40503 + (y as usize) * 31153 + (z as usize) * 21269) / 4096 % 256
}

// The processes before p have other names than p; that is known where none of them `met` p's mark.
pub fn apart(words: &[u16], met: u8, p: usize) -> bool
    requires { (process_base + process_width * p + process_width ≤ length words.now) × ((1 ≤ p) × (met ≡ 0
        → new_name words.now (p - 1) (process_at words.now p process_name)
        (process_at words.now p process_second_name) (process_at words.now p process_third_name) ≡ true)) }
    ensures { result ≡ new_name words.now (p - 1) (process_at words.now p process_name) (process_at words.now p process_second_name)
        (process_at words.now p process_third_name) }
{
    if met == 0 {
        return true;
    }
    let start = process::BASE + process::WORDS * p;
    new_name(
        words,
        p - 1,
        words[start + process::NAME],
        words[start + (process::NAME + 1)],
        words[start + (process::NAME + 2)],
    )
}
