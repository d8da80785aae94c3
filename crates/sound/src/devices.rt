// The devices, numbered from 1: each names nobody, or a process that waits for it, or keeps an interrupt.
ghost use Rattle.std.specs.Prelude.{◌≡◌, ◌+◌, ◌*◌, ◌≤◌, length};
ghost use Rattle.machine.specs.Numbers.{device_count};
ghost use Rattle.machine.specs.Records.{header_width, process_width};
ghost use Rattle.machine.specs.Sound.{P_of};
ghost use Rattle.sound.specs.Devices.{waits_for, waiter, device, named, nobody, four, devices};

use machine::{device, edition, header, process, state};

// All devices, four at a time.
const FOURS: usize = device::COUNT / 4;

// A process of that state and device waits for device d.
fn waits_for(state: u16, device: u16, d: usize) -> bool
    ensures { result ≡ waits_for state device d }
{
    (state == state::WAITS_INTERRUPT) & (device as usize == d)
}

// Process p waits for device d.
fn waiter(words: &[u16], p: u16, d: usize) -> bool
    requires { header_width + process_width * P_of words.now ≤ length words.now }
    ensures { result ≡ waiter words.now p d }
{
    if p > words[header::PROCESSES] {
        return false;
    }
    let start = process::BASE + process::WORDS * (p as usize);
    waits_for(
        words[start + process::STATE],
        words[start + process::DEVICE],
        d,
    )
}

// Device d names nobody, or a process that waits for it, or in edition 1 keeps an interrupt.
fn device(words: &[u16], d: usize) -> bool
    requires { (header_width + process_width * P_of words.now ≤ length words.now) × (d ≤ device_count) }
    ensures { result ≡ device words.now d }
{
    let p = words[device::BASE + d];
    if p == 0 {
        return true;
    }
    if p == device::KEPT {
        return words[header::EDITION] == edition::SECOND;
    }
    waiter(words, p, d)
}

// The words of all devices laid one over the other: 0 where none of them names anybody.
fn named(words: &[u16]) -> u16
    requires { header_width ≤ length words.now }
    ensures { result ≡ named words.now device_count }
{
    let mut all: u16 = 0;
    for d in 1..=device::COUNT {
        all |= words[device::BASE + d];
    }
    all
}

// The four devices behind d name nobody.
fn nobody(words: &[u16], d: usize) -> bool
    requires { (header_width ≤ length words.now) × (d ≤ 60) }
    ensures { result ≡ nobody words.now d }
{
    (words[device::BASE + (d + 1)] == 0)
        & ((words[device::BASE + (d + 2)] == 0)
            & ((words[device::BASE + (d + 3)] == 0) & (words[device::BASE + (d + 4)] == 0)))
}

// Four devices, most often idle, at once.
fn four(words: &[u16], d: usize) -> bool
    requires { (header_width + process_width * P_of words.now ≤ length words.now) × (d ≤ 60) }
    ensures { result ≡ four words.now d }
{
    if nobody(words, d) {
        return true;
    }
    device(words, d + 1) & (device(words, d + 2) & (device(words, d + 3) & device(words, d + 4)))
}

// All 64. Most often nobody waits for any, and that is seen at once.
pub fn devices(words: &[u16]) -> bool
    requires { header_width + process_width * P_of words.now ≤ length words.now }
    ensures { result ≡ devices words.now }
{
    if named(words) == 0 {
        return true;
    }
    for fours in 0..FOURS {
        if !four(words, 4 * fours) {
            return false;
        }
    }
    true
}
