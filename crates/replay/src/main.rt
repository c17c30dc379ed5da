//! Reads a script on standard input and writes what each record is told, a line for each.

#![tactic(auto)]

use play::Words;

fn main(rt: HostRuntime) {
    // the bytes of 1000 records, and room for their text
    let mut input = [0u8; 20000];
    let mut output = [0u8; 63000];
    let words = Words {
        unread: b"replay: standard input cannot be read\n",
        untaken: b"replay: standard output takes no more\n",
    };
    play::to_end(&rt, &mut input, &mut output, false, words);
}
