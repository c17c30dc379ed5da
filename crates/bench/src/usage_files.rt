//! Usage files of a full host: a round writes the file at the next reading, and what is counted is two bytes of each; or it
//! opens the file with another last weight, and the domains of each are counted.

use policy::Scheduler;
use system::{PhysicalCpu, RunState, System, VirtualCpu};

// 16 domains of 8 vCPUs, each with a run time of 7 and in flight since clock 0; a read asks no more of a system.
fn full_system() -> System {
    let v = VirtualCpu {
        state: RunState::Running { pcpu: 0 },
        runtime: 7,
        dispatched_at: 0,
        affinity: 1,
        last: 0,
    };
    System {
        domain_count: 16,
        vcpus_per_domain: 8,
        pcpu_count: 64,
        vcpus: [v; 128],
        pcpus: [PhysicalCpu::IDLE; 64],
    }
}

/// Files written.
pub fn written(rounds: u64) -> u64 {
    let Ok(p) = Scheduler::new(16, 8, 10) else {
        return 0;
    };
    let s = full_system();
    let mut total: u64 = 0;
    for k in 0..rounds {
        let file = usage_write::write(&s, &p, k);
        total = total.wrapping_add(file.bytes[121] as u64 + file.bytes[2661] as u64);
    }
    total
}

/// Files opened.
pub fn opened(rounds: u64) -> u64 {
    let Ok(p) = Scheduler::new(16, 8, 10) else {
        return 0;
    };
    let mut bytes = usage_write::write(&full_system(), &p, 0).bytes;
    let mut total: u64 = 0;
    for k in 0..rounds {
        bytes[2645] = (k % 0x100) as u8;
        let domains = usage_parse::domain_count(&bytes);
        total = total.wrapping_add(domains.unwrap_or(17) as u64);
    }
    total
}
