//! Transitions of a full host: a round is four calls, and what is counted is how many of the last of them were done.

use system::{Answer, System};

// 16 domains of 8 vCPUs on 64 pCPUs: all admitted, the first 64 running.
fn fill(s: &mut System) {
    for i in 0..128u32 {
        let dom = (i / 8) as u16;
        sched::admit(s, dom, i % 8);
        if i < 64 {
            sched::run(s, dom, i % 8, i, 0);
        }
    }
}

// A waiting vCPU blocks and wakes; a running one is preempted and runs again. Whether that was done.
fn round(s: &mut System, now: u64) -> bool {
    sched::block(s, 15, 7, now);
    sched::wake(s, 15, 7);
    sched::preempt(s, 0, 0, now);
    sched::run(s, 0, 0, 0, now) == Answer::Done
}

pub fn made(rounds: u64) -> u64 {
    let Ok(mut s) = System::new(16, 8, 64) else {
        return 0;
    };
    fill(&mut s);
    let mut done: u64 = 0;
    for k in 0..rounds {
        if round(&mut s, k) {
            done = done.wrapping_add(1);
        }
    }
    done
}
