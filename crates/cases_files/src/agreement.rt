// Compares an answer of the library with the stored one.
ghost use Rattle.std.specs.Prelude.{◌≡◌, ◌&&◌};

use std::fmt::Display;

// Whether the answer is the stored one and what the call left is as stored. If not, the case is
// printed: its number, from 0, and both answers.
pub fn agrees<A: PartialEq + Display>(
    rt: &impl Print,
    number: u32,
    given: &A,
    stored: &A,
    is_left_as_stored: bool,
) -> bool
    ensures { result ≡ (A.eq given.now stored.now && is_left_as_stored) }
{
    let same = given == stored && is_left_as_stored;
    if !same {
        let _ = println!(rt; "case {number} differs: library{given}\tstored{stored}");
    }
    same
}
