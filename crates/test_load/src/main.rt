//! Writes a load record by record, as its iterator hands it out, for tests: the stored sample of `load`.

#![tactic(auto)]

use records::{RECORD, Record, Shape};

fn put(rt: &HostRuntime, r: Record) -> bool {
    let mut bytes = [0u8; RECORD];
    records::put_record(&mut bytes, 0, r);
    streams::put(rt, &bytes, b"test_load: standard output takes no more\n")
}

fn main(rt: HostRuntime) {
    let shape = Shape {
        num_domains: 3,
        vcpus_per_domain: 2,
        num_pcpus: 2,
        quantum: 10,
    };
    for r in load_script::open(20261117, shape, 400).load {
        if !put(&rt, r) {
            return;
        }
    }
}
