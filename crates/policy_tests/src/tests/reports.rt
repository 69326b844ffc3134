ghost use Rattle.std.specs.Prelude.{◌≡◌, true, IfOk};

use crate::tests::loads::loaded_of;
use acl_host::{Day, read_day};
use acl_load::{ResolvedPolicy, settle};
use acl_report::{put_count, report_terms, shaded_lists};
use acl_target::Targets;
use acl_text::{Memory, Whole};
use std::alloc::Global;

const NETWORKS: &[u8] = b"WEB = 192.0.2.10\nBOTH = 192.0.2.10 2001:db8::10\n";

// A file that policies may include.
const INCLUDED: &[u8] =
    b"\nterm gone {\n  source-address:: WEB\n  source-exclude:: WEB\n  action:: deny\n}\n";

fn settled(alloc: Global, policy: &[u8]) -> Result<ResolvedPolicy, Memory> {
    let files = [
        ("def/n.net", NETWORKS),
        ("pol/a.pol", policy),
        ("pol/b.inc", INCLUDED),
    ];
    settle(alloc, loaded_of(alloc, &files).ok_or(Memory)?)
}

fn put_counts(report: &mut Whole, targets: &[Targets], entries: u64) -> Result<(), Memory>
    requires { report.old.is_open ≡ true }
{
    let [first, ..] = targets else {
        return Ok(());
    };
    let [target, ..] = first.as_slice() else {
        return Ok(());
    };
    put_count(report, b"out/a.acl", target, entries)
}

fn terms_report(
    alloc: Global,
    policy: &ResolvedPolicy,
    today: Day,
    weeks: u16,
) -> Result<Whole, Memory>
    ensures { IfOk result (λ report. report.is_open ≡ true) }
{
    let shaded = shaded_lists(alloc, policy, today)?;
    report_terms(alloc, policy, &shaded, today, weeks)
}

// The report on the policy that day, with five entries for its first target.
fn report(alloc: Global, policy: &ResolvedPolicy, today: Day, weeks: u16) -> Result<Whole, Memory> {
    let mut report = terms_report(alloc, policy, today, weeks)?;
    put_counts(&mut report, policy.targets.as_slice(), 5)?;
    Ok(report)
}

const EXPIRED: &str = "pol/a.pol:1: term t expired on ";

const EXPIRES: &str = "pol/a.pol:1: term t expires on ";

// The day of the term, today, the weeks before the day, and what is told.
static DAYS: [(&str, &str, u16, &str); 12] = [
    ("2026-01-15", "2026-01-14", 2, EXPIRES),
    ("2026-01-15", "2026-01-15", 2, EXPIRED),
    ("2026-01-29", "2026-01-15", 2, EXPIRES),
    ("2026-01-30", "2026-01-15", 2, ""),
    ("2024-02-29", "2024-02-22", 1, EXPIRES),
    ("2024-03-01", "2024-02-22", 1, ""),
    ("2036-01-03", "2026-01-15", 520, EXPIRES),
    ("2036-01-04", "2026-01-15", 520, ""),
    ("2026-01-16", "2026-01-15", 0, ""),
    ("2026-01-15", "2026-01-15", 0, EXPIRED),
    ("0001-01-01", "9999-12-31", 520, EXPIRED),
    ("9999-12-31", "9999-12-30", 520, EXPIRES),
];

// Whether the report on the policy `pol/a.pol` that day is this text.
fn is_report(
    alloc: Global,
    policy: &[u8],
    today: &[u8],
    weeks: u16,
    text: &[u8],
) -> Result<bool, Memory> {
    let today = read_day(today).ok_or(Memory)?;
    let policy = settled(alloc, policy)?;
    Ok(report(alloc, &policy, today, weeks)?.as_slice() == text)
}

// The report with a line of these words, where there are any.
fn told(alloc: Global, words: &str, expires: &str) -> Result<String, Memory> {
    if words.is_empty() {
        return Ok(String::from_str(alloc, "out/a.acl: cisco e extended: entries 5\n")?);
    }
    Ok(format!(in alloc; "{words}{expires}\nout/a.acl: cisco e extended: entries 5\n")?)
}

fn is_told(alloc: Global, row: &(&str, &str, u16, &str)) -> Result<bool, Memory> {
    let (expires, today, weeks, words) = *row;
    let policy = format!(in alloc;
        "header {{ target:: cisco e }} term t {{ expiration:: {expires} action:: deny }}"
    )?;
    let told = told(alloc, words, expires)?;
    is_report(
        alloc,
        policy.as_bytes(),
        today.as_bytes(),
        weeks,
        told.as_bytes(),
    )
}

#[test]
fn days_of_expiry_at_their_edges(rt: HostRuntime) {
    for row in &DAYS {
        assert!(rt; is_told(rt.alloc(), row) == Ok(true), "{} {}", row.0, row.1);
    }
}

// Policies, and the report on them on 2026-01-15.
static TERMS: [(&[u8], &[u8]); 7] = [
    // empty for IPv6 alone: it is told where there is no other family
    (
        b"header { target:: cisco m mixed target:: cisco s inet6 target:: nftables inet6 input }\nterm a {\n source-address:: WEB\n action:: deny }\n",
        b"pol/a.pol:2: term a empty on cisco s inet6\npol/a.pol:2: term a empty on nftables input inet6\nout/a.acl: cisco m mixed: entries 5\n",
    ),
    // empty in each family of a target; another protocol leaves none
    (
        b"header { target:: cisco m mixed }\nterm a { source-address:: BOTH\n source-exclude:: BOTH\n action:: deny }\nterm b { protocol:: icmpv6\n action:: deny }\nterm c { protocol:: icmp\n source-address:: BOTH\n source-exclude:: WEB\n action:: deny }\n",
        b"pol/a.pol:2: term a empty on cisco m mixed\npol/a.pol:7: term c empty on cisco m mixed\nout/a.acl: cisco m mixed: entries 5\n",
    ),
    // told only where the term is live
    (
        b"header { target:: cisco e\n target:: juniper e\n target:: iptables INPUT DROP }\n#include 'b.inc'\nterm j { platform:: juniper\n source-address:: WEB\n source-exclude:: WEB\n action:: deny }\nterm k { platform-exclude:: juniper\n source-address:: WEB\n source-exclude:: WEB\n action:: deny }\n",
        b"pol/b.inc:2: term gone empty on cisco e extended\npol/b.inc:2: term gone empty on juniper e inet\npol/b.inc:2: term gone empty on iptables INPUT inet\npol/a.pol:5: term j empty on juniper e inet\npol/a.pol:9: term k empty on cisco e extended\npol/a.pol:9: term k empty on iptables INPUT inet\nout/a.acl: cisco e extended: entries 5\n",
    ),
    // shaded by the first term that takes in all that it has; told behind the day
    (
        b"header { target:: cisco e }\nterm a { source-address:: BOTH\n action:: accept }\nterm b { source-address:: WEB\n action:: deny }\nterm c { expiration:: 2026-01-20\n source-address:: WEB\n protocol:: udp\n action:: deny }\n",
        b"pol/a.pol:4: term b shaded by a\npol/a.pol:6: term c expires on 2026-01-20\npol/a.pol:6: term c shaded by a\nout/a.acl: cisco e extended: entries 5\n",
    ),
    // a term that expired is live nowhere
    (
        b"header { target:: cisco e }\nterm a { expiration:: 2026-01-01\n source-address:: WEB\n source-exclude:: WEB\n action:: deny }\n",
        b"pol/a.pol:2: term a expired on 2026-01-01\nout/a.acl: cisco e extended: entries 5\n",
    ),
    // the day comes first, for a term of no platform too
    (
        b"header { target:: cisco e }\nterm a { expiration:: 2026-01-20\n source-address:: WEB\n source-exclude:: WEB\n action:: deny }\nterm b { platform:: arista\n expiration:: 2026-01-20\n action:: deny }\n",
        b"pol/a.pol:2: term a expires on 2026-01-20\npol/a.pol:2: term a empty on cisco e extended\npol/a.pol:6: term b expires on 2026-01-20\nout/a.acl: cisco e extended: entries 5\n",
    ),
    // each block has its targets, and a file that is included twice is told of twice
    (
        b"header { target:: cisco e }\n#include 'b.inc'\nterm t { expiration:: 2026-01-01\n action:: deny }\nheader { target:: juniper e }\n#include 'b.inc'\n",
        b"pol/b.inc:2: term gone empty on cisco e extended\npol/a.pol:3: term t expired on 2026-01-01\npol/b.inc:2: term gone empty on juniper e inet\nout/a.acl: cisco e extended: entries 5\n",
    ),
];

#[test]
fn terms_are_told_of_on_their_targets(rt: HostRuntime) {
    for (place, (policy, lines)) in TERMS.iter().enumerate() {
        assert!(rt;
            is_report(rt.alloc(), policy, b"2026-01-15", 2, lines) == Ok(true),
            "row {place}"
        );
    }
}
