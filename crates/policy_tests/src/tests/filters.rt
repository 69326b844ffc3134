ghost use Rattle.std.specs.Prelude.{IfOk};
ghost use Rattle.std.specs.List.{All};
ghost use Rattle.acl_platform.specs.SoundFilters.{IsSound};
ghost use Rattle.acl_policy.specs.Conditions.{IsBlock};
ghost use Rattle.acl_target.specs.TargetData.{IsTarget};

use crate::tests::files::text;
use crate::tests::reading::{TODAY, base, policy_of, shown_slip, terms_of};
use acl_expand::expand;
use acl_naming::Checked;
use acl_platform::{Filter, Rule, Test};
use acl_policy::Block;
use acl_sets::{Prefixes, RangeSet};
use acl_target::Target;
use acl_terms::Term;
use acl_text::{Memory, Refusal};
use std::alloc::Global;

fn expand_on_first(alloc: Global, terms: &[Term], targets: &[Target]) -> Result<Filter, Refusal>
    requires { All IsTarget targets.now }
{
    match targets {
        [] => Err(Refusal::Memory),
        [target, ..] => expand(alloc, terms, target, TODAY),
    }
}

fn expand_block(alloc: Global, base: &Checked, block: &Block) -> Result<Filter, Refusal>
    requires { IsBlock block.now }
{
    let terms = terms_of(alloc, base, block.terms.as_slice())?;
    expand_on_first(alloc, terms.as_slice(), block.targets.as_slice())
}

fn expand_first(alloc: Global, blocks: &[Block]) -> Result<Filter, Refusal>
    requires { All IsBlock blocks.now }
{
    match blocks {
        [] => Err(Refusal::Memory),
        [block, ..] => expand_block(alloc, &base(alloc)?, block),
    }
}

// The filter of the terms, of which the first is in line 4, on the target, on 2026-01-15.
fn filter_of(alloc: Global, target: &str, terms: &str) -> Result<Filter, Refusal> {
    let text = format!(in alloc; "header {{\n target:: {target}\n}}\n{terms}\n")?;
    let policy = policy_of(alloc, text.as_bytes())?;
    expand_first(alloc, policy.blocks.as_slice())
}

// Puts the ranges of a set behind a semicolon, with nothing for a set that is all.
fn add_set(alloc: Global, out: &mut String, set: &RangeSet) -> Result<(), Memory> {
    out.push_str(";")?;
    if !set.is_all() {
        for range in set.ranges() {
            let piece = format!(in alloc; " {}-{}", range.low, range.high)?;
            out.push_str(&piece)?;
        }
    }
    Ok(())
}

fn add_list(alloc: Global, out: &mut String, prefixes: &Prefixes) -> Result<(), Memory> {
    out.push_str(";")?;
    for prefix in prefixes.iter() {
        let piece = format!(in alloc; " {}/{}", prefix.first, prefix.len)?;
        out.push_str(&piece)?;
    }
    Ok(())
}

fn test_word(test: Test) -> &'static str {
    match test {
        Test::Plain => "Plain",
        Test::AckOrRst => "AckOrRst",
        Test::SynNotAck => "SynNotAck",
        Test::Rst => "Rst",
        Test::State => "State",
    }
}

// The rule's name, family, verdict, test and log.
fn add_head(alloc: Global, out: &mut String, rule: &Rule) -> Result<(), Memory> {
    let name = text(rule.name.as_slice());
    let head = format!(in alloc;
        "{name} {:?} {:?} {} {}",
        rule.family,
        rule.verdict,
        test_word(rule.test),
        rule.log
    )?;
    out.push_str(&head)?;
    Ok(())
}

// A rule in one line: its head, then its protocols, ports and addresses.
fn add_rule(alloc: Global, out: &mut String, rule: &Rule) -> Result<(), Memory> {
    add_head(alloc, out, rule)?;
    add_set(alloc, out, &rule.protos)?;
    add_set(alloc, out, &rule.sports)?;
    add_set(alloc, out, &rule.dports)?;
    add_list(alloc, out, &rule.src)?;
    add_list(alloc, out, &rule.dst)?;
    out.push_str("\n")?;
    Ok(())
}

fn shown_rules(alloc: Global, rules: &[Rule]) -> Result<String, Memory> {
    let mut out = String::new(alloc);
    for rule in rules {
        add_rule(alloc, &mut out, rule)?;
    }
    Ok(out)
}

// The rules of a filter, or the slip in its place.
fn shown(alloc: Global, answer: &Result<Filter, Refusal>) -> Result<String, Memory> {
    match answer {
        Ok(filter) => shown_rules(alloc, filter.rules.as_slice()),
        Err(Refusal::Slip(slip)) => shown_slip(alloc, slip),
        Err(Refusal::Memory) => Err(Memory),
    }
}

// Whether the terms on the target become these rules, or slip so.
fn becomes(alloc: Global, target: &str, terms: &str, rules: &str) -> Result<bool, Memory> {
    Ok(shown(alloc, &filter_of(alloc, target, terms))?.as_str() == rules)
}

const CISCO: &str = "cisco e extended";

const BOTH_PROTOCOLS: &str = "term est { protocol:: tcp udp option:: established action:: accept }";

const AH: &str = "term a { protocol:: 60 ah action:: deny }";

const EDGE: &str = "term block-bogon { source-address:: BOGON action:: deny }
term established { protocol:: tcp udp option:: established action:: accept }
term dns { destination-address:: DNS destination-port:: DNS protocol:: udp tcp action:: accept }
term web { destination-address:: SERVERS destination-port:: WEB protocol:: tcp action:: accept }
term default-deny { logging:: true action:: deny }";

// A target, the terms, and what is shown of the filter.
static FILTERS: [(&str, &str, &str); 27] = [
    // sets of addresses become least lists
    (
        CISCO,
        "term a { source-address:: LOW HIGH action:: deny }",
        "a V4 Deny Plain false;;;; 167772160/8; 0/0\n",
    ),
    (
        CISCO,
        "term a { source-address:: FIRST SECOND action:: reject }",
        "a V4 Deny Plain false;;;; 167772416/24 167772672/24; 0/0\n",
    ),
    (
        CISCO,
        "term a { source-address:: TEN source-exclude:: PIN action:: accept }",
        "a V4 Accept Plain false;;;; 167772160/9 176160768/32 176160770/31 176160772/30 176160776/29 176160784/28 176160800/27 176160832/26 176160896/25 176161024/24 176161280/23 176161792/22 176162816/21 176164864/20 176168960/19 176177152/18 176193536/17 176226304/16 176291840/15 176422912/14 176685056/13 177209344/12 178257920/11 180355072/10; 0/0\n",
    ),
    // terms that have nothing left, or are not live
    (
        CISCO,
        "term none { source-address:: WEB source-exclude:: WEB action:: accept }\nterm rest { protocol:: udp icmpv6 action:: accept }",
        "rest V4 Accept Plain false; 17-17;;; 0/0; 0/0\n",
    ),
    (
        CISCO,
        "term a { expiration:: 2026-01-15 action:: deny }",
        "",
    ),
    (CISCO, "term a { platform:: juniper action:: deny }", ""),
    // a rule for each side
    (
        CISCO,
        "term a { address:: LOW protocol:: udp port:: DNS action:: accept }",
        "a-src-sport V4 Accept Plain false; 17-17; 53-53;; 167772160/9; 0/0\na-src-dport V4 Accept Plain false; 17-17;; 53-53; 167772160/9; 0/0\na-dst-sport V4 Accept Plain false; 17-17; 53-53;; 0/0; 167772160/9\na-dst-dport V4 Accept Plain false; 17-17;; 53-53; 0/0; 167772160/9\n",
    ),
    (
        CISCO,
        "term a { address:: LOW source-address:: HIGH action:: accept }",
        "a-dst V4 Accept Plain false;;;; 176160768/9; 167772160/9\n",
    ),
    (
        "nftables mixed input",
        "term a { address:: LOW HALF action:: deny }",
        "a-src V4 Deny Plain false;;;; 167772160/9; 0/0\na-dst V4 Deny Plain false;;;; 0/0; 167772160/9\na-src V6 Deny Plain false;;;; 0/1; 0/0\na-dst V6 Deny Plain false;;;; 0/0; 0/1\n",
    ),
    (
        "juniper e inet",
        "term est { protocol:: tcp udp port:: DNS option:: established action:: accept }",
        "est-sport-tcp V4 Accept AckOrRst false; 6-6; 53-53;; 0/0; 0/0\nest-sport-udp V4 Accept Plain false; 17-17; 53-53; 1024-65535; 0/0; 0/0\nest-dport-tcp V4 Accept AckOrRst false; 6-6;; 53-53; 0/0; 0/0\n",
    ),
    (
        CISCO,
        "term a { address:: LOW source-address:: HIGH destination-address:: HIGH action:: accept }",
        "",
    ),
    // established, by protocol
    (
        "juniper e inet",
        BOTH_PROTOCOLS,
        "est-tcp V4 Accept AckOrRst false; 6-6;;; 0/0; 0/0\nest-udp V4 Accept Plain false; 17-17;; 1024-65535; 0/0; 0/0\n",
    ),
    (
        "nftables mixed input",
        BOTH_PROTOCOLS,
        "est V4 Accept State false; 6-6 17-17;;; 0/0; 0/0\nest V6 Accept State false; 6-6 17-17;;; 0/0; 0/0\n",
    ),
    (
        CISCO,
        "term t { protocol:: tcp option:: established action:: accept }",
        "t V4 Accept AckOrRst false; 6-6;;; 0/0; 0/0\n",
    ),
    (
        CISCO,
        "term u { protocol:: udp option:: established action:: accept }",
        "u V4 Accept Plain false; 17-17;; 1024-65535; 0/0; 0/0\n",
    ),
    (
        CISCO,
        "term n { protocol:: udp option:: established destination-port:: DNS action:: accept }",
        "n V4 Accept Plain false; 17-17;; 53-53; 0/0; 0/0\n",
    ),
    // the other options
    (
        "iptables INPUT DROP",
        "term o { protocol:: tcp option:: tcp-established action:: accept }",
        "o V4 Accept State false; 6-6;;; 0/0; 0/0\n",
    ),
    (
        "iptables INPUT nostate",
        "term o { protocol:: tcp option:: tcp-established action:: accept }",
        "o V4 Accept AckOrRst false; 6-6;;; 0/0; 0/0\n",
    ),
    (
        CISCO,
        "term o { protocol:: tcp option:: tcp-initial action:: accept }",
        "o V4 Accept SynNotAck false; 6-6;;; 0/0; 0/0\n",
    ),
    (
        "iptables INPUT DROP",
        "term o { protocol:: tcp option:: rst action:: accept }",
        "o V4 Accept Rst false; 6-6;;; 0/0; 0/0\n",
    ),
    // extension headers of IPv6
    ("cisco e mixed", AH, "4 ExtensionHeader 51"),
    (
        CISCO,
        AH,
        "a V4 Deny Plain false; 51-51 60-60;;; 0/0; 0/0\n",
    ),
    (
        "cisco e inet6",
        "term a { protocol:: ah source-address:: WEB action:: deny }",
        "",
    ),
    (
        "cisco e inet6",
        "term a { protocol:: ah platform:: juniper action:: deny }",
        "",
    ),
    (
        "cisco e inet6",
        "term a { protocol:: esp source-address:: HALF action:: deny }",
        "a V6 Deny Plain false; 50-50;;; 0/1; 0/0\n",
    ),
    // an edge policy
    (
        CISCO,
        EDGE,
        "block-bogon V4 Deny Plain false;;;; 167772160/8 2130706432/8 2886729728/12 3232235520/16; 0/0\nestablished-tcp V4 Accept AckOrRst false; 6-6;;; 0/0; 0/0\nestablished-udp V4 Accept Plain false; 17-17;; 1024-65535; 0/0; 0/0\ndns V4 Accept Plain false; 6-6 17-17;; 53-53; 0/0; 3221226037/32\nweb V4 Accept Plain false; 6-6;; 80-80 443-443; 0/0; 3221225994/31\ndefault-deny V4 Deny Plain true;;;; 0/0; 0/0\n",
    ),
    (
        "nftables mixed input",
        EDGE,
        "block-bogon V4 Deny Plain false;;;; 167772160/8 2130706432/8 2886729728/12 3232235520/16; 0/0\nblock-bogon V6 Deny Plain false;;;; 334965454937798799971759379190646833152/7; 0/0\nestablished V4 Accept State false; 6-6 17-17;;; 0/0; 0/0\nestablished V6 Accept State false; 6-6 17-17;;; 0/0; 0/0\ndns V4 Accept Plain false; 6-6 17-17;; 53-53; 0/0; 3221226037/32\nweb V4 Accept Plain false; 6-6;; 80-80 443-443; 0/0; 3221225994/31\nweb V6 Accept Plain false; 6-6;; 80-80 443-443; 0/0; 42540766411282592856903984951653826576/128\ndefault-deny V4 Deny Plain true;;;; 0/0; 0/0\ndefault-deny V6 Deny Plain true;;;; 0/0; 0/0\n",
    ),
];

#[test]
fn terms_become_rules(rt: HostRuntime) {
    for (target, terms, rules) in &FILTERS {
        assert!(rt;
            becomes(rt.alloc(), target, terms, rules) == Ok(true),
            "at {target} {terms}"
        );
    }
}
