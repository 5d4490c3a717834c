//! Assignments of elements to variables, one after another.

ghost use Rattle.std.specs.Prelude.{◌≡◌, ◌≤◌, ◌<◌, ◌+◌, ◌^◌, length, replicate, true, false};
ghost use Rattle.sc_interp.specs.Assignments.{AreElements, assignment_number};

/// Makes the next assignment of it. False after the last, of which it makes the first one again.
pub fn advance(size: u8, values: &mut [u8]) -> bool
    requires size { 1 ≤ size }
    requires elements { AreElements size values.old }
    ensures elements { AreElements size values.new }
    ensures length { length values.new ≡ length values.old }
    ensures next { result ≡ true → assignment_number size values.new ≡ assignment_number size values.old + 1 }
    ensures last { result ≡ false → assignment_number size values.old + 1 ≡ size ^ length values.old }
{
    for value in values.iter_mut() {
        if *value < size - 1 {
            *value += 1;
            return true;
        }
        *value = 0;
    }
    false
}

/// Makes the first assignment of it.
pub fn start(values: &mut [u8])
    ensures { values.new ≡ replicate (length values.old) 0 }
{
    for value in values.iter_mut() {
        *value = 0;
    }
}
