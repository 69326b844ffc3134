ghost use Rattle.std.specs.Prelude.{[], ◌∷◌, IfOk, decimal, unwrap_or};
ghost use Rattle.acl_rows.specs.Rows.{row};
ghost use Rattle.acl_platform.specs.Combinations.{IsSized};

use crate::tests::samples::{HEAD, Head, addresses, filter, open_rule};
use acl_packet::{Conn, Family, Outcome, Packet, Verdict};
use acl_platform::{
    Combination, Filter, Rule, Rules, Test, count_combinations, filter_outcome, put_combinations,
};
use acl_rows::{Number, OneWord, Row, RowForm, Rows};
use acl_sets::{Range, RangeSet};
use acl_target::Ending;
use acl_text::{Memory, Out, PutFault, Whole};
use std::alloc::Global;

// What of TCP and UDP goes from 0.0.0.1 or 0.0.0.2 to 0.0.0.3, ports 80 to 81 and 443, and begins a
// connection.
#[tactic(auto, using(acl_platform::proofs::SoundRules::sized_by))]
fn web(alloc: Global) -> Result<Rule, Memory>
    ensures { IfOk result IsSized }
{
    let mut rule = open_rule(alloc, b"web")?;
    rule.src = addresses(alloc, 1, 2)?;
    rule.dst = addresses(alloc, 3, 3)?;
    let protos = [Range { low: 6, high: 6 }, Range { low: 17, high: 17 }];
    rule.protos = RangeSet::from_ranges(alloc, 255, &protos)?;
    let dports = [
        Range { low: 80, high: 81 },
        Range {
            low: 443,
            high: 443,
        },
    ];
    rule.dports = RangeSet::from_ranges(alloc, 65535, &dports)?;
    rule.test = Test::SynNotAck;
    rule.log = true;
    Ok(rule)
}

// The source, the protocol, and the first port of the destination.
struct InNumbers;

impl RowForm<Combination> for InNumbers {
    ghost item_rows = { λ f c. row 0 (decimal c.src.first ∷ decimal (unwrap_or c.proto 0)
        ∷ decimal (unwrap_or c.dport (0, 0)).0 ∷ []) ∷ [] };

    fn put_item<O: Out>(&self, item: &Combination, out: &mut O) -> Result<(), PutFault> {
        let proto = u128::from(item.proto.unwrap_or(0));
        let (port, _) = item.dport.unwrap_or((0, 0));
        let first = Number {
            number: item.src.first,
        };
        let proto = OneWord {
            piece: Number { number: proto },
        };
        let port = OneWord {
            piece: Number {
                number: u128::from(port),
            },
        };
        let line = Row {
            indent: 0,
            first,
            rest: (proto, port),
        };
        line.put_rows(out)
    }
}

const EACH: &[u8] = b"1 6 80\n1 6 443\n2 6 80\n2 6 443\n1 17 80\n1 17 443\n2 17 80\n2 17 443\n";

fn are_combinations(alloc: Global, rule: &Rule) -> bool
    requires { IsSized rule.now }
{
    let mut out = Whole::new(alloc);
    put_combinations(rule, &InNumbers, &mut out).is_ok()
        && out.as_slice() == EACH
        && count_combinations(rule) == 8
}

fn web_is_combined(alloc: Global) -> Result<bool, Memory> {
    Ok(are_combinations(alloc, &web(alloc)?))
}

#[test]
fn writes_each_combination(rt: HostRuntime) {
    assert!(rt; web_is_combined(rt.alloc()) == Ok(true));
}

// A packet that begins a connection to the rule's destination.
const SYN: Packet = Packet {
    family: Family::V4,
    src: 1,
    dst: 3,
    proto: 6,
    sport: 1024,
    dport: 81,
    flags: 2,
    itype: 0,
    icode: 0,
    conn: Conn::New,
};

const HELD: Outcome = Outcome {
    verdict: Verdict::Accept,
    logged: true,
};

const PASSED: Outcome = Outcome {
    logged: false,
    ..HELD
};

const DENIED: Outcome = Outcome {
    verdict: Verdict::Deny,
    ..PASSED
};

static OUTCOMES: [(Packet, Outcome); 7] = [
    (SYN, HELD),
    (Packet { src: 3, ..SYN }, DENIED),
    (Packet { proto: 132, ..SYN }, DENIED),
    (Packet { dport: 82, ..SYN }, DENIED),
    (Packet { flags: 18, ..SYN }, DENIED),
    (SYN_OF_SIX, DENIED),
    // a neighbour is looked for
    (
        Packet {
            proto: 58,
            sport: 0,
            dport: 0,
            flags: 0,
            itype: 135,
            ..SYN_OF_SIX
        },
        PASSED,
    ),
];

const SYN_OF_SIX: Packet = Packet {
    family: Family::V6,
    ..SYN
};

const WEB_HEAD: Head = Head {
    ending: Ending::Neighbours,
    ..HEAD
};

fn web_filter(alloc: Global) -> Result<Filter, Memory> {
    let mut rules = Rules::new(alloc);
    rules.push(web(alloc)?)?;
    filter(alloc, &WEB_HEAD, rules)
}

fn web_outcome(alloc: Global, packet: &Packet) -> Result<Outcome, Memory> {
    Ok(filter_outcome(&web_filter(alloc)?, packet))
}

#[test]
fn the_first_rule_or_the_ending_decides(rt: HostRuntime) {
    for (place, (packet, outcome)) in OUTCOMES.iter().enumerate() {
        let found = web_outcome(rt.alloc(), packet);
        assert!(rt; found == Ok(*outcome), "packet {place}");
    }
}
