//! The leaves on their boundaries. Each check is proved to hold, and run.

#![tactic(auto)]

use service::Service;
use std::io::Print;

const ZERO: Service = [0; 4];

const ONE: Service = [1, 0, 0, 0];
/// 2^32 - 1.
const LIMB: Service = [u32::MAX, 0, 0, 0];
/// 2^32.
const BASE: Service = [0, 1, 0, 0];
/// 2^64 - 1.
const WORD: Service = [u32::MAX, u32::MAX, 0, 0];
/// 2^64.
const LONG: Service = [0, 0, 1, 0];
/// 2^128 - 1.
const TOP: Service = [u32::MAX; 4];

#[tactic(auto, unfolding(service::specs::Service::value, service::specs::Service::limbs, service::specs::Service::held))]
fn sums_and_differences() {
    check::expect(service::from_u64(0) == ZERO);
    check::expect(service::from_u64(1) == ONE);
    check::expect(service::from_u64(u64::MAX) == WORD);
    check::expect(service::sum(ZERO, ZERO) == ZERO);
    check::expect(service::sum(LIMB, ONE) == BASE);
    check::expect(service::sum(WORD, ONE) == LONG);
    check::expect(service::sum(TOP, ZERO) == TOP);
    check::expect(service::sum(TOP, ONE) == TOP);
    check::expect(service::sum(TOP, TOP) == TOP);
    check::expect(service::difference(ZERO, ONE) == ZERO);
    check::expect(service::difference(BASE, ONE) == LIMB);
    check::expect(service::difference(LONG, ONE) == WORD);
    check::expect(service::difference(TOP, TOP) == ZERO);
    check::expect(service::difference(TOP, ZERO) == TOP);
}

#[tactic(auto, unfolding(service::specs::Service::value, service::specs::Service::limbs, service::specs::Service::held))]
fn products_and_quotients() {
    check::expect(service::product(TOP, 0) == ZERO);
    check::expect(service::product(TOP, 1) == TOP);
    check::expect(service::product(TOP, 2) == TOP);
    check::expect(service::product(TOP, u32::MAX) == TOP);
    check::expect(service::product(LIMB, u32::MAX) == [1, 0xffff_fffe, 0, 0]);
    check::expect(service::product(WORD, u32::MAX) == [1, u32::MAX, 0xffff_fffe, 0]);
    check::expect(service::product(ONE, u32::MAX) == LIMB);
    check::expect(service::quotient(TOP, 0) == TOP);
    check::expect(service::quotient(TOP, 1) == TOP);
    check::expect(service::quotient(TOP, 3) == [0x5555_5555; 4]);
    check::expect(service::quotient(TOP, u32::MAX) == [1; 4]);
    check::expect(service::quotient(WORD, u32::MAX) == [1, 1, 0, 0]);
    check::expect(service::quotient(ONE, u32::MAX) == ZERO);
    check::expect(service::quotient(ZERO, 0) == ZERO);
}

#[tactic(auto, unfolding(service::specs::Service::value, service::specs::Service::more_deserving))]
fn orders_of_services() {
    check::expect(!service::less(ZERO, ZERO));
    check::expect(service::less(LIMB, BASE));
    check::expect(!service::less(BASE, LIMB));
    check::expect(service::less(WORD, LONG));
    check::expect(!service::less(TOP, TOP));
    check::expect(!service::more_deserving([10, 0, 0, 0], 2, [5, 0, 0, 0], 1));
    check::expect(!service::more_deserving([5, 0, 0, 0], 1, [10, 0, 0, 0], 2));
    check::expect(!service::more_deserving([0, 0, 0, 16], 0x4000_0000, [0, 0, 0, 32], 0x4000_0000));
    check::expect(service::more_deserving(WORD, 1, LONG, 1));
    check::expect(!service::more_deserving(LONG, u32::MAX, WORD, u32::MAX));
    check::expect(service::more_deserving(WORD, u32::MAX, WORD, 0xffff_fffe));
    check::expect(!service::more_deserving(ZERO, 0, ZERO, u32::MAX));
}

// Each pCPU's bit is twice the one before it; from 64 up there is none.
fn bits_of_pcpus() {
    let mut want: u64 = 1;
    for pcpu in 0..=64 {
        check::expect(masks::pcpu_bit(pcpu) == want);
        want = want.wrapping_add(want);
    }
}

#[tactic(auto, unfolding(masks::specs::Masks::first))]
fn sets_of_pcpus() {
    check::expect(masks::full_mask(0) == 0);
    check::expect(masks::full_mask(1) == 1);
    check::expect(masks::full_mask(63) == 0x7fff_ffff_ffff_ffff);
    check::expect(masks::full_mask(64) == u64::MAX);
    check::expect(masks::full_mask(65) == u64::MAX);
    check::expect(masks::clip(u64::MAX, 0) == 0);
    check::expect(masks::clip(u64::MAX, 2) == 3);
    check::expect(masks::clip(u64::MAX, 63) == 0x7fff_ffff_ffff_ffff);
    check::expect(masks::clip(u64::MAX, 64) == u64::MAX);
    check::expect(masks::clip(u64::MAX, 65) == u64::MAX);
    check::expect(masks::mask_permits(u64::MAX, 63));
    check::expect(!masks::mask_permits(u64::MAX, 64));
    check::expect(!masks::mask_permits(u64::MAX, u32::MAX));
    check::expect(!masks::mask_permits(0, 0));
    check::expect(masks::lowest_pcpu(0) == 64);
    check::expect(masks::lowest_pcpu(1) == 0);
    check::expect(masks::lowest_pcpu(0x8000_0000_0000_0000) == 63);
    check::expect(masks::lowest_pcpu(0xffff_0000_0000_0000 & 0xaaaa_aaaa_aaaa_aaaa) == 49);
}

fn main(rt: HostRuntime) {
    sums_and_differences();
    products_and_quotients();
    orders_of_services();
    bits_of_pcpus();
    sets_of_pcpus();
    // what is not taken is missed by whoever compares it
    let _ = rt
        .stdout()
        .write_all(b"123 boundary vectors of masks and service: all hold\n");
}
