use crate::tests::files::{text, tree_of};
use crate::tests::reading::parsed;
use acl_host::Day;
use acl_policy::{Policy, RawTerm, Target, WordList, put_target};
use acl_text::{BoxedSlip, Memory, Refusal, Whole};
use std::alloc::Global;

fn add_words(all: &mut String, words: &WordList) -> Result<(), Memory> {
    for word in words.iter() {
        all.push_str(text(word.text()))?;
        all.push_str(" ")?;
    }
    all.push_str("|")?;
    Ok(())
}

fn add_addresses(all: &mut String, term: &RawTerm) -> Result<(), Memory> {
    add_words(all, term.sources())?;
    add_words(all, term.source_excludes())?;
    add_words(all, term.destinations())?;
    add_words(all, term.destination_excludes())?;
    add_words(all, term.addresses())
}

fn add_ports(all: &mut String, term: &RawTerm) -> Result<(), Memory> {
    add_words(all, term.protocols())?;
    add_words(all, term.source_ports())?;
    add_words(all, term.destination_ports())?;
    add_words(all, term.ports())
}

// The words of each keyword that takes a list, in the order of the fields.
fn add_lists(all: &mut String, term: &RawTerm) -> Result<(), Memory> {
    add_addresses(all, term)?;
    add_ports(all, term)?;
    add_words(all, term.icmp_types())?;
    add_words(all, term.icmp_codes())?;
    add_words(all, term.options())?;
    add_words(all, term.platforms())?;
    add_words(all, term.not_platforms())
}

fn add_day(alloc: Global, all: &mut String, day: Option<Day>) -> Result<(), Memory> {
    match day {
        Some(day) => {
            let number = format!(in alloc; "{}", day.number)?;
            all.push_str(number.as_str())?;
        }
        None => all.push_str("none")?,
    }
    Ok(())
}

fn add_term(alloc: Global, all: &mut String, term: &RawTerm) -> Result<(), Memory> {
    all.push_str(text(term.name().text.as_slice()))?;
    all.push_str("|")?;
    all.push_str(text(term.comments().as_slice()))?;
    all.push_str("|")?;
    add_lists(all, term)?;
    all.push_str(text(term.action().text.as_slice()))?;
    all.push_str(if term.logging() { " true " } else { " false " })?;
    add_day(alloc, all, term.expires())
}

// The target as a report names it.
fn add_line(alloc: Global, all: &mut String, target: &Target) -> Result<(), Memory> {
    let mut whole = Whole::new(alloc);
    if put_target(&mut whole, target).is_err() {
        return Err(Memory);
    }
    all.push_str(text(whole.as_slice()))?;
    Ok(())
}

fn add_target(alloc: Global, all: &mut String, target: &Target) -> Result<(), Memory> {
    add_line(alloc, all, target)?;
    let rest = format!(in alloc;
        " {} {} {:?} {};",
        target.number, target.priority, target.ending, target.stateful
    )?;
    all.push_str(rest.as_str())?;
    Ok(())
}

fn shown_policy(alloc: Global, policy: &Policy) -> Result<String, Memory> {
    let mut all = String::new(alloc);
    for block in policy.blocks.as_slice() {
        for target in block.targets.as_slice() {
            add_target(alloc, &mut all, target)?;
        }
        for term in block.terms.as_slice() {
            add_term(alloc, &mut all, term)?;
        }
    }
    Ok(all)
}

// A slip by its file, line, code and word.
fn shown_slip(alloc: Global, slip: &BoxedSlip) -> Result<String, Memory> {
    let slip = slip.as_slip();
    let word = text(slip.word.as_slice());
    let place = slip.place;
    Ok(format!(in alloc; "{}:{} {:?} {word}", place.file, place.line, slip.code)?)
}

// A file that policies may include.
const INCLUDED: &[u8] = b"term raw {\n verbatim:: cisco \"permit ip any any\"\n}\n";

// The policy with all its words, or its first slip.
fn shown(alloc: Global, answer: &Result<Policy, Refusal>) -> Result<String, Memory> {
    match answer {
        Ok(policy) => shown_policy(alloc, policy),
        Err(Refusal::Slip(slip)) => shown_slip(alloc, slip),
        Err(Refusal::Memory) => Err(Memory),
    }
}

fn shown_of(alloc: Global, policy: &[u8]) -> Result<String, Memory> {
    let mut tree = tree_of(alloc, &[("pol/a.pol", policy), ("pol/v.inc", INCLUDED)])?;
    shown(alloc, &parsed(alloc, &mut tree))
}

// A keyword that stands once is repeated; a word that is none of the table is no keyword.
static POLICIES: [(&[u8], &str); 48] = [
    // one fault
    (b"", "0:0 Missing header"),
    (
        b"header {\n target:: cisco edge extended\n}\nterm t {\n",
        "0:4 Syntax end",
    ),
    (
        b"header {\n target:: arista edge\n}\n",
        "0:2 TargetLine arista",
    ),
    (b"header {\n}\n", "0:2 Missing target::"),
    (b"header { target:: cisco e }\nheader {", "0:2 Missing term"),
    (
        b"header { target:: cisco e }\nterm t {\n}\n",
        "0:3 Missing action::",
    ),
    (
        b"header { target:: cisco e }\n#include 'v.inc'\n",
        "1:2 Keyword verbatim::",
    ),
    // the first of two faults
    (b"header {\n target::\n \x01", "0:3 BadByte \x01"),
    (b"header {\n target:: cisco\n \"e", "0:3 Syntax \""),
    (b"header {\n target::\n action::", "0:2 Missing target::"),
    (b"header {\n target:: cisco\n }", "0:2 TargetLine cisco"),
    (
        b"header {\n target:: cisco e\n target:: cisco e x",
        "0:3 TargetLine x",
    ),
    (
        b"header {\n target:: cisco ipv6-e\n target:: cisco e mixed\n action::",
        "0:3 FilterTwice e",
    ),
    (b"header {\n action:: \x01", "0:2 Keyword action::"),
    (b"header {\n comment:: x \x01", "0:2 Value x"),
    (b"header { target:: cisco e } {", "0:1 Syntax {"),
    (
        b"header { target:: cisco e }\nterm t {\n action:: deny deny \x01",
        "0:3 Value deny",
    ),
    (
        b"header { target:: cisco e }\nterm t {\n action:: deny\n action:: x",
        "0:4 Repeated action::",
    ),
    (
        b"header { target:: cisco e }\nterm t {\n owner::",
        "0:3 Missing owner::",
    ),
    (
        b"header { target:: cisco e }\nterm t { action:: deny }\nterm \"t\" {",
        "0:3 Syntax t",
    ),
    (
        b"header { target:: cisco e }\nterm t { action:: deny }\nterm t }",
        "0:3 TermTwice t",
    ),
    // target lines, and filters of one name
    (b"header { target:: cisco 1e", "0:1 TargetLine 1e"),
    (b"header { target:: juniper e mixed", "0:1 TargetLine mixed"),
    (
        b"header { target:: iptables INPUT DROP DROP",
        "0:1 TargetLine DROP",
    ),
    (b"header { target:: iptables input", "0:1 TargetLine input"),
    (
        b"header { target:: nftables mixed",
        "0:1 TargetLine nftables",
    ),
    (
        b"header { target:: nftables mixed input -0",
        "0:1 TargetLine -0",
    ),
    (
        b"header { target:: nftables mixed input 32768",
        "0:1 TargetLine 32768",
    ),
    (
        b"header { target:: nftables inet input target:: nftables mixed input",
        "0:1 FilterTwice input",
    ),
    (
        b"header { target:: cisco e target:: cisco e inet6",
        "0:1 FilterTwice e",
    ),
    (
        b"header { target:: cisco e inet6 target:: cisco ipv6-e target:: iptables INPUT target:: iptables INPUT inet6 target:: juniper e target:: juniper e inet6 }",
        "0:1 Missing term",
    ),
    // keywords that stand once, and words that are none
    (
        b"header { target:: cisco e }\nterm t { owner:: a\n owner:: a }",
        "0:3 Repeated owner::",
    ),
    (
        b"header { target:: cisco e }\nterm t { logging:: true\n logging:: true }",
        "0:3 Repeated logging::",
    ),
    (
        b"header { target:: cisco e }\nterm t { expiration:: 2026-01-15\n expiration:: 2026-01-15 }",
        "0:3 Repeated expiration::",
    ),
    (
        b"header { target:: cisco e }\nterm t {\n address:: 10.0.0.0/8 }",
        "0:3 Value 10.0.0.0/8",
    ),
    (
        b"header { target:: cisco e }\nterm t {\n port:: }",
        "0:3 Missing port::",
    ),
    (
        b"header { target:: cisco e }\nterm t {\n icmp-code:: 0 255\n 256 }",
        "0:4 Value 256",
    ),
    (
        b"header { target:: cisco e }\nterm t {\n icmp-code:: 04 }",
        "0:3 Value 04",
    ),
    (
        b"header { target:: cisco e }\nterm t {\n icmp-code:: +4 }",
        "0:3 Value +4",
    ),
    (
        b"header { target:: cisco e }\nterm t {\n icmp-code:: port-unreachable }",
        "0:3 Value port-unreachable",
    ),
    (
        b"header { target:: cisco e }\nterm t {\n icmp-code::\n action:: deny }",
        "0:3 Missing icmp-code::",
    ),
    (
        b"header { target:: cisco e }\nterm t {\n target:: cisco f }",
        "0:3 Keyword target::",
    ),
    (
        b"header { target:: cisco e }\nterm t {\n address-exclude:: A }",
        "0:3 Keyword address-exclude::",
    ),
    (
        b"header { target:: cisco e }\nterm t {\n Action:: deny }",
        "0:3 Keyword Action::",
    ),
    // targets and terms
    (
        b"header { target:: cisco e }\r\nterm t {\r\n action:: deny\r\n}\r\n",
        "cisco e extended 1 0 Neighbours false;t||||||||||||||||deny false none",
    ),
    (
        b"header { comment:: \"x\" target:: cisco e target:: juniper e target:: iptables INPUT target:: nftables inet6 output -5 target:: cisco f mixed target:: iptables OUTPUT nostate inet6 DROP } term t { action:: deny }",
        "cisco e extended 1 0 Neighbours false;juniper e inet 1 0 Deny false;iptables INPUT inet 1 0 Left true;nftables output inet6 1 -5 Deny true;cisco f mixed 2 0 Neighbours false;iptables OUTPUT inet6 2 0 Deny false;t||||||||||||||||deny false none",
    ),
    (
        b"header { target:: cisco e }\nterm t { source-address:: A B# c\n comment:: \"\" \"a # b\" source-address::C protocol:: 6 tcp destination-port:: term icmp-type:: echo-reply packet-too-big option:: rst owner:: \"me\" logging:: True expiration:: 2026-01-15 platform:: arista comment:: \"c\" action:: reject }",
        "cisco e extended 1 0 Neighbours false;t| a # b c|A B C |||||6 tcp ||term ||echo-reply packet-too-big ||rst |arista ||reject true 20468",
    ),
    (
        b"header { target:: cisco e }\nterm t { source-address:: A source-exclude:: B destination-address:: C destination-exclude:: D address:: E protocol:: tcp source-port:: F destination-port:: G port:: H icmp-type:: echo-reply icmp-code:: 0 4 option:: rst platform:: cisco platform-exclude:: juniper source-exclude:: b address:: e1 e2 port:: h icmp-code:: 255 0 platform-exclude:: iptables action:: deny }",
        "cisco e extended 1 0 Neighbours false;t||A |B b |C |D |E e1 e2 |tcp |F |G |H h |echo-reply |0 4 255 0 |rst |cisco |juniper iptables |deny false none",
    ),
];

fn is_shown_as(alloc: Global, policy: &[u8], text: &str) -> Result<bool, Memory> {
    Ok(shown_of(alloc, policy)?.as_str() == text)
}

#[test]
fn policies_are_read_or_slip(rt: HostRuntime) {
    for (place, (policy, text)) in POLICIES.iter().enumerate() {
        assert!(rt;
            is_shown_as(rt.alloc(), policy, text) == Ok(true),
            "policy {place}"
        );
    }
}
