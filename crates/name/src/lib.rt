// The name of a process, three words: legal or not.
#![tactic(auto)]

ghost use Rattle.std.specs.Prelude.{◌≡◌};
ghost use Rattle.machine.specs.Layout.{name_ok};

// 1 to 5 bytes that are not zero, left byte first, then zeros.
pub fn name_ok(x: u16, y: u16, z: u16) -> bool
    ensures { result ≡ name_ok x y z }
{
    if x < 256 || z % 256 != 0 {
        return false;
    }
    if y < 256 || x % 256 == 0 {
        return y == 0 && z == 0;
    }
    y % 256 != 0 || z == 0
}
