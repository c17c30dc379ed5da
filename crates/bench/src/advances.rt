//! Advances of a host whose vCPUs all wait, at weights 1, 2, 3 …: a round is an advance, 7 ticks after the last, and what is
//! counted is the moves.

use host::Host;

// Every vCPU that exists is admitted, and slot i has the weight i + 1.
fn admit_all(h: &mut Host) {
    for i in 0..128u32 {
        let dom = (i / 8) as u16;
        sched::admit(&mut h.system, dom, i % 8);
        h.scheduler.set_weight(dom, i % 8, i + 1);
    }
}

pub fn made(num_domains: usize, vcpus: usize, pcpus: usize, rounds: u64) -> u64 {
    let Ok(mut h) = Host::new(num_domains, vcpus, pcpus, 10) else {
        return 0;
    };
    admit_all(&mut h);
    let mut moves: u64 = 0;
    for k in 0..rounds {
        let told = advance::advance(&mut h.system, &mut h.scheduler, k.wrapping_mul(7));
        moves = moves.wrapping_add(told.count as u64);
    }
    moves
}
