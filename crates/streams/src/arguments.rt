//! The arguments of a program.

ghost use Rattle.std.specs.Prelude.{◌≤◌};
ghost use Rattle.streams.specs.Words.{SaidIn};

use std::env::{Env, FillError};

/// The most bytes of a word that says a number: a longer one says none.
pub const WORD_ROOM: usize = 32;

/// How many there are before `most`, the program's own name among them.
pub fn count(rt: &HostRuntime, most: usize) -> usize
    ensures { result ≤ most }
{
    let mut word = [0u8; 1];
    for i in 0..most {
        if matches!(rt.arg(i, &mut word), Err(FillError::NotPresent)) {
            return i;
        }
    }
    most
}

/// The number that argument i says; the room then begins with its word, if that fits.
pub fn number(rt: &HostRuntime, i: usize, room: &mut [u8; WORD_ROOM]) -> Option<u64>
    ensures { SaidIn room.new result }
{
    let n = rt.arg(i, room).unwrap_or(0);
    text::number_in(&room[..n])
}
