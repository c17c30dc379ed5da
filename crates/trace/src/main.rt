//! Reads a script on standard input and writes what each record is told and, after it, the whole host.

#![tactic(auto)]

use play::Words;

fn main(rt: HostRuntime) {
    // the bytes of 40 records, and room for their text
    let mut input = [0u8; 800];
    let mut output = [0u8; 1148000];
    let words = Words {
        unread: b"trace: standard input cannot be read\n",
        untaken: b"trace: standard output takes no more\n",
    };
    play::to_end(&rt, &mut input, &mut output, true, words);
}
