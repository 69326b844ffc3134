use acl_text::Memory;
use aclgen_core::{Workload, workload};
use std::alloc::Global;
use std::str;

const NETWORKS: &[u8] =
    b"N0 = 10.0.0.0/25 10.0.0.128/25 2001:db8:0::/48\nN1 = 10.0.1.0/25 10.0.1.128/25 2001:db8:1::/48\n";

const SERVICES: &[u8] = b"S0 = 1000/tcp 1000/udp\nS1 = 1001/tcp 1001/udp\n";

const POLICY: &[u8] =
    b"header {\n  target:: cisco w mixed\n  target:: juniper w inet\n  target:: iptables FORWARD DROP\n  target:: nftables mixed forward\n}\nterm t0 {\n  source-address:: N0\n  destination-port:: S0\n  protocol:: tcp udp\n  action:: accept\n}\nterm t1 {\n  source-address:: N1\n  destination-port:: S1\n  protocol:: tcp udp\n  action:: accept\n}\n";

fn has_two_of_each(load: &Workload) -> bool {
    load.networks.as_slice() == NETWORKS
        && load.services.as_slice() == SERVICES
        && load.policy.as_slice() == POLICY
}

fn makes_two_of_each(alloc: Global) -> Result<bool, Memory> {
    Ok(has_two_of_each(&workload(alloc, 2)?))
}

#[test]
fn two_of_each_are_made(rt: HostRuntime) {
    assert!(rt; makes_two_of_each(rt.alloc()) == Ok(true));
}

// Lines of the networks of a workload of 1,024: of each number of digits, and on both sides of 256.
static LINES: [(usize, &str); 7] = [
    (9, "N9 = 10.0.9.0/25 10.0.9.128/25 2001:db8:9::/48"),
    (10, "N10 = 10.0.10.0/25 10.0.10.128/25 2001:db8:a::/48"),
    (16, "N16 = 10.0.16.0/25 10.0.16.128/25 2001:db8:10::/48"),
    (255, "N255 = 10.0.255.0/25 10.0.255.128/25 2001:db8:ff::/48"),
    (256, "N256 = 10.1.0.0/25 10.1.0.128/25 2001:db8:100::/48"),
    (300, "N300 = 10.1.44.0/25 10.1.44.128/25 2001:db8:12c::/48"),
    (
        1023,
        "N1023 = 10.3.255.0/25 10.3.255.128/25 2001:db8:3ff::/48",
    ),
];

fn has_line(networks: &[u8], place: usize, line: &str) -> bool {
    let text = str::from_utf8(networks).unwrap_or("");
    text.lines().nth(place) == Some(line)
}

fn makes_line(alloc: Global, place: usize, line: &str) -> Result<bool, Memory> {
    let load = workload(alloc, 1024)?;
    Ok(has_line(load.networks.as_slice(), place, line))
}

#[test]
fn networks_have_their_numbers(rt: HostRuntime) {
    for (place, line) in &LINES {
        assert!(rt; makes_line(rt.alloc(), *place, line) == Ok(true), "{place}");
    }
}
