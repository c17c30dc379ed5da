//! Standard input and output and the arguments, as programs use them: a read that fails is told from the end of the input, and
//! what standard output does not take is said on standard error.

#![tactic(auto)]

ghost use Rattle.std.specs.Prelude.{◌≤◌};
ghost use Rattle.io.specs.Counts.{IsPrefixLen};

pub mod arguments;

use std::io::{self, Print, Read};

/// How many bytes were read, and the error of the read that failed after them, if one did.
#[derive(Clone, Copy)]
pub struct Got {
    pub bytes: usize,
    pub error: Option<io::Error>,
}

/// Reads until the room is full, the input ends or a read fails.
// std's `read_exact` does not tell how many bytes came before it failed
pub fn read(rt: &HostRuntime, room: &mut [u8]) -> Got
    ensures { IsPrefixLen result.bytes room.new }
{
    let mut bytes: usize = 0;
    while bytes < room.len() {
        match rt.stdin().read(&mut room[bytes..]) {
            Ok(0) => break,
            Ok(more) => bytes += more,
            Err(error) => {
                return Got {
                    bytes,
                    error: Some(error),
                };
            }
        }
    }
    Got { bytes, error: None }
}

/// Says words on standard error.
pub fn say(rt: &HostRuntime, words: &[u8]) {
    // where standard error takes nothing, nobody can be told
    let _ = rt.stderr().write_all(words);
}

/// Writes bytes; where not all of them are taken it says the words. Whether all were.
pub fn put(rt: &HostRuntime, bytes: &[u8], words: &[u8]) -> bool {
    let taken = rt.stdout().write_all(bytes).is_ok();
    if !taken {
        say(rt, words);
    }
    taken
}
