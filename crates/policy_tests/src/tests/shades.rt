ghost use Rattle.std.specs.List.{All};
ghost use Rattle.acl_policy.specs.Conditions.{IsBlock};

use crate::tests::reading::{TODAY, base, policy_of, terms_of};
use acl_naming::Checked;
use acl_policy::Block;
use acl_shade::shaded_places;
use acl_target::Target;
use acl_terms::Term;
use acl_text::{Memory, Refusal};
use std::alloc::Global;

fn add_place(alloc: Global, shown: &mut String, place: Option<usize>) -> Result<(), Memory> {
    match place {
        Some(earlier) => {
            let number = format!(in alloc; "{earlier}")?;
            shown.push_str(&number)?;
        }
        None => shown.push_str("-")?,
    }
    Ok(())
}

// The terms in order: each by the place of the one that shades it, or by a dash.
fn places(alloc: Global, terms: &[Term], targets: &[Target]) -> Result<String, Memory> {
    let places = shaded_places(alloc, terms, targets, TODAY)?;
    let mut shown = String::new(alloc);
    for place in places.as_slice() {
        add_place(alloc, &mut shown, *place)?;
    }
    Ok(shown)
}

fn places_in(alloc: Global, base: &Checked, block: &Block) -> Result<String, Refusal>
    requires { IsBlock block.now }
{
    let terms = terms_of(alloc, base, block.terms.as_slice())?;
    Ok(places(alloc, terms.as_slice(), block.targets.as_slice())?)
}

fn places_in_first(alloc: Global, blocks: &[Block]) -> Result<String, Refusal>
    requires { All IsBlock blocks.now }
{
    match blocks {
        [] => Err(Refusal::Memory),
        [block, ..] => places_in(alloc, &base(alloc)?, block),
    }
}

// The places of the terms, for two platforms, on 2026-01-15.
fn shown(alloc: Global, terms: &str) -> Result<String, Refusal> {
    let text = format!(in alloc; "header {{ target:: cisco e target:: juniper e }}\n{terms}")?;
    let policy = policy_of(alloc, text.as_bytes())?;
    places_in_first(alloc, policy.blocks.as_slice())
}

// The terms with others behind them that are not live, so many that they are sifted.
fn among_many(alloc: Global, terms: &str) -> Result<String, Memory> {
    let mut text = String::from_str(alloc, terms)?;
    for n in 0..64 {
        let more = format!(in alloc; "\nterm p{n} {{ expiration:: 2026-01-15 action:: deny }}")?;
        text.push_str(more.as_str())?;
    }
    Ok(text)
}

static SHADES: [(&str, &str); 44] = [
    // by addresses and life
    ("term a { action:: accept } term b { action:: deny }", "-0"),
    (
        "term a { source-address:: TEN action:: deny } term b { source-address:: ONE action:: deny }",
        "-0",
    ),
    (
        "term a { source-address:: ONE action:: deny } term b { source-address:: TEN action:: deny }",
        "--",
    ),
    (
        "term a { expiration:: 2026-01-15 action:: deny } term b { action:: deny }",
        "--",
    ),
    (
        "term a { platform:: cisco action:: deny } term b { action:: deny } term c { platform:: cisco action:: deny }",
        "--0",
    ),
    (
        "term a { destination-address:: TEN action:: deny } term b { destination-address:: BOTH action:: deny }",
        "--",
    ),
    (
        "term a { source-address:: LOW action:: deny } term b { source-address:: HIGH action:: deny } term c { source-address:: TEN action:: deny }",
        "---",
    ),
    (
        "term a { source-address:: TEN action:: deny } term b { source-address:: TEN action:: deny } term c { source-address:: ONE action:: deny }",
        "-00",
    ),
    (
        "term a { source-address:: SIX action:: deny } term b { source-address:: ONE source-exclude:: TEN action:: deny }",
        "--",
    ),
    (
        "term a { action:: deny } term b { source-address:: ONE source-exclude:: TEN action:: deny }",
        "--",
    ),
    (
        "term a { action:: deny } term b { platform:: iptables action:: deny }",
        "--",
    ),
    (
        "term a { source-address:: TEN action:: deny } term b { action:: deny } term c { source-address:: ONE action:: deny }",
        "--0",
    ),
    // by options
    (
        "term a { protocol:: tcp action:: deny } term b { protocol:: tcp option:: established action:: deny }",
        "-0",
    ),
    (
        "term a { protocol:: tcp option:: established action:: deny } term b { protocol:: tcp action:: deny }",
        "--",
    ),
    (
        "term a { protocol:: tcp option:: tcp-established action:: deny } term b { protocol:: tcp option:: established action:: deny }",
        "--",
    ),
    (
        "term a { protocol:: tcp option:: tcp-established action:: deny } term b { protocol:: tcp option:: tcp-established action:: deny }",
        "-0",
    ),
    (
        "term a { protocol:: tcp option:: tcp-initial action:: deny } term b { protocol:: tcp option:: rst action:: deny }",
        "--",
    ),
    (
        "term a { protocol:: udp option:: established action:: deny } term b { protocol:: udp option:: established action:: deny }",
        "-0",
    ),
    (
        "term a { protocol:: udp option:: established action:: deny } term b { protocol:: udp option:: established destination-port:: DNS action:: deny }",
        "--",
    ),
    (
        "term a { protocol:: udp option:: established destination-port:: ANY action:: deny } term b { protocol:: udp option:: established action:: deny }",
        "-0",
    ),
    (
        "term a { protocol:: udp option:: established destination-port:: DNS action:: deny } term b { protocol:: udp option:: established destination-port:: DNS action:: deny }",
        "-0",
    ),
    // by protocols, ports, types and codes
    (
        "term a { protocol:: tcp destination-port:: WEB action:: deny } term b { protocol:: tcp destination-port:: HTTP action:: deny }",
        "-0",
    ),
    (
        "term a { protocol:: tcp destination-port:: HTTP action:: deny } term b { protocol:: tcp destination-port:: WEB action:: deny }",
        "--",
    ),
    (
        "term a { protocol:: tcp source-port:: HTTP action:: deny } term b { protocol:: tcp source-port:: WEB action:: deny }",
        "--",
    ),
    (
        "term a { protocol:: icmp icmp-type:: 0 8 action:: deny } term b { protocol:: icmp icmp-type:: 8 action:: deny }",
        "-0",
    ),
    (
        "term a { protocol:: icmp icmp-type:: 8 action:: deny } term b { protocol:: icmp icmp-type:: 0 8 action:: deny }",
        "--",
    ),
    (
        "term a { protocol:: icmp icmp-type:: 3 action:: deny } term b { protocol:: icmp icmp-type:: 3 icmp-code:: 4 action:: deny }",
        "-0",
    ),
    (
        "term a { protocol:: icmp icmp-type:: 3 icmp-code:: 4 action:: deny } term b { protocol:: icmp icmp-type:: 3 action:: deny }",
        "--",
    ),
    (
        "term a { protocol:: icmp icmp-type:: 3 icmp-code:: 4 3 action:: deny } term b { protocol:: icmp icmp-type:: 3 icmp-code:: 3 action:: deny } term c { protocol:: icmp icmp-type:: 3 icmp-code:: 4 5 action:: deny }",
        "-0-",
    ),
    (
        "term a { protocol:: tcp udp action:: deny } term b { protocol:: udp action:: deny } term c { action:: deny }",
        "-0-",
    ),
    (
        "term a { protocol:: icmp action:: deny } term b { protocol:: icmp icmpv6 action:: deny }",
        "--",
    ),
    (
        "term a { protocol:: icmp source-address:: TEN action:: deny } term b { protocol:: icmp icmpv6 source-address:: TEN action:: deny }",
        "-0",
    ),
    // on either side
    (
        "term a { address:: TEN action:: deny } term b { source-address:: LOW action:: deny }",
        "-0",
    ),
    (
        "term a { address:: TEN action:: deny } term b { destination-address:: LOW action:: deny }",
        "-0",
    ),
    (
        "term a { address:: TEN action:: deny } term b { address:: LOW action:: deny }",
        "-0",
    ),
    (
        "term a { address:: LOW action:: deny } term b { address:: TEN action:: deny }",
        "--",
    ),
    (
        "term a { source-address:: TEN action:: deny } term b { destination-address:: TEN action:: deny } term c { address:: LOW action:: deny }",
        "---",
    ),
    (
        "term a { source-address:: TEN action:: deny } term b { source-address:: LOW address:: LOW action:: deny }",
        "-0",
    ),
    (
        "term a { action:: deny } term b { address:: LOW action:: deny }",
        "-0",
    ),
    (
        "term a { action:: deny } term b { address:: LOW source-exclude:: LOW destination-exclude:: LOW action:: deny }",
        "--",
    ),
    (
        "term a { protocol:: tcp port:: WEB action:: deny } term b { protocol:: tcp source-port:: HTTP action:: deny }",
        "-0",
    ),
    (
        "term a { protocol:: tcp port:: WEB action:: deny } term b { protocol:: tcp destination-port:: HTTP action:: deny }",
        "-0",
    ),
    (
        "term a { protocol:: tcp destination-port:: WEB action:: deny } term b { protocol:: tcp port:: HTTP action:: deny }",
        "--",
    ),
    (
        "term a { address:: TEN protocol:: udp port:: DNS action:: deny } term b { source-address:: LOW protocol:: udp destination-port:: DNS action:: deny }",
        "-0",
    ),
];

// Whether the terms have these places. `None` where they are refused.
fn are_at(alloc: Global, terms: &str, places: &str) -> Option<bool> {
    Some(shown(alloc, terms).ok()?.as_str() == places)
}

// The same, where others are behind them.
fn are_first_at(alloc: Global, terms: &str, places: &str) -> Option<bool> {
    let many = among_many(alloc, terms).ok()?;
    let shown = shown(alloc, many.as_str()).ok()?;
    Some(shown.as_str().starts_with(places))
}

#[test]
fn terms_are_shaded(rt: HostRuntime) {
    for (terms, places) in &SHADES {
        assert!(rt;
            are_at(rt.alloc(), terms, places) == Some(true),
            "at {terms}"
        );
        assert!(rt;
            are_first_at(rt.alloc(), terms, places) == Some(true),
            "among many at {terms}"
        );
    }
}
