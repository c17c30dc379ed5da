//! A script played from standard input to standard output, as `replay` and `trace` do it.

#![tactic(auto)]

ghost use Rattle.play.specs.Stretched.{Stretched};

use script::Script;

/// What is said where standard input cannot be read, and where standard output does not take it all.
#[derive(Clone, Copy)]
pub struct Words<'a> {
    pub unread: &'a [u8],
    pub untaken: &'a [u8],
}

// Reads as many bytes as `input` has, plays their records and writes the text. Where standard input cannot be read, or standard
// output does not take it all, the words for it are said. Whether there may be more.
fn stretch(
    rt: &HostRuntime,
    script: &mut Script,
    input: &mut [u8],
    output: &mut [u8],
    states: bool,
    words: Words<'_>,
) -> bool
    ensures { Stretched states script.old input.new output.old script.new }
{
    let got = streams::read(rt, input);
    let taken = script.replay(&input[..got.bytes], output, states);
    let put = streams::put(rt, &output[..taken.written], words.untaken);
    let failed = got.error.is_some();
    if failed {
        streams::say(rt, words.unread);
    }
    put && got.bytes == input.len() && !failed
}

/// Plays what standard input has, as many bytes at a time as `input` has, and writes the text, with the states where they are asked
/// for. Where standard input cannot be read, or standard output does not take it all, the words for it are said and it ends.
pub fn to_end(
    rt: &HostRuntime,
    input: &mut [u8],
    output: &mut [u8],
    states: bool,
    words: Words<'_>,
) {
    let mut script = Script::new();
    // a proved loop has to end, and nothing says that the input does
    for _ in 0..u64::MAX {
        if !stretch(rt, &mut script, input, output, states, words) {
            return;
        }
    }
}
