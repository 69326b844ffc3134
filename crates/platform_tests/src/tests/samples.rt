ghost use Rattle.std.specs.Prelude.{◌≡◌, ◌≤◌, IfOk};
ghost use Rattle.acl_platform.specs.Combinations.{IsSized};
ghost use Rattle.platform_tests.specs.SampleFilters.{filter_with};

use acl_packet::{Families, Family, Hook, Verdict};
use acl_platform::{Filter, Rule, Rules, SharedRules, Test};
use acl_sets::{Prefixes, Range, RangeSet, least_prefixes};
use acl_target::{Ending, Kind};
use acl_text::{Bytes, Memory, Place};
use std::alloc::Global;

// What a filter has beside its rules.
#[derive(Clone, Copy)]
pub(crate) struct Head {
    pub(crate) kind: Kind,
    pub(crate) name: &'static [u8],
    pub(crate) families: Families,
    pub(crate) hook: Hook,
    pub(crate) ending: Ending,
    pub(crate) priority: i32,
    pub(crate) verbose: bool,
    pub(crate) number: u32,
}

// The chain of iptables for what comes in by IPv4. The other heads say what they have otherwise.
pub(crate) const HEAD: Head = Head {
    kind: Kind::Iptables,
    name: b"INPUT",
    families: Families::Inet,
    hook: Hook::Input,
    ending: Ending::Left,
    priority: 0,
    verbose: true,
    number: 1,
};

pub(crate) fn filter(alloc: Global, head: &Head, rules: Rules) -> Result<Filter, Memory>
    ensures made { IfOk result (λ f. f ≡ filter_with head.now.kind head.now.name.now
        head.now.families head.now.hook head.now.ending head.now.priority head.now.verbose
        head.now.number rules) }
    ensures rules { IfOk result (λ f. f.rules ≡ rules) }
{
    Ok(Filter {
        place: Place { file: 1, line: 1 },
        kind: head.kind,
        name: Bytes::from_slice(alloc, head.name)?,
        families: head.families,
        hook: head.hook,
        ending: head.ending,
        priority: head.priority,
        verbose: head.verbose,
        number: head.number,
        rules: SharedRules::new(alloc, rules)?,
    })
}

// The addresses of IPv4 from one to another.
pub(crate) fn addresses(alloc: Global, low: u128, high: u128) -> Result<Prefixes, Memory>
    requires order { low ≤ high }
    requires top { high ≤ 4294967295 }
{
    let set = RangeSet::from_ranges(alloc, 0xffff_ffff, &[Range { low, high }])?;
    least_prefixes(&set, Family::V4)
}

// All ports of either side.
fn all_ports(alloc: Global) -> Result<(RangeSet, RangeSet), Memory>
    ensures { IfOk result (λ s. (s.0.top ≡ 65535) × (s.1.top ≡ 65535)) }
{
    Ok((RangeSet::all(alloc, 65535)?, RangeSet::all(alloc, 65535)?))
}

// All types and all codes.
fn all_types(alloc: Global) -> Result<(RangeSet, RangeSet), Memory>
    ensures { IfOk result (λ s. (s.0.top ≡ 255) × (s.1.top ≡ 255)) }
{
    Ok((RangeSet::all(alloc, 255)?, RangeSet::all(alloc, 255)?))
}

// A rule of this name that accepts each packet of IPv4.
pub(crate) fn open_rule(alloc: Global, name: &[u8]) -> Result<Rule, Memory>
    ensures protocols { IfOk result (λ r. r.protos.top ≡ 255) }
    ensures ports { IfOk result (λ r. (r.sports.top ≡ 65535) × (r.dports.top ≡ 65535)) }
    ensures types { IfOk result (λ r. (r.itypes.top ≡ 255) × (r.icodes.top ≡ 255)) }
{
    let name = Bytes::from_slice(alloc, name)?;
    let src = addresses(alloc, 0, 0xffff_ffff)?;
    let dst = addresses(alloc, 0, 0xffff_ffff)?;
    let protos = RangeSet::all(alloc, 255)?;
    let (sports, dports) = all_ports(alloc)?;
    let (itypes, icodes) = all_types(alloc)?;
    Ok(Rule {
        name,
        place: Place { file: 1, line: 2 },
        note: Bytes::new(alloc),
        family: Family::V4,
        src,
        dst,
        protos,
        sports,
        dports,
        itypes,
        icodes,
        test: Test::Plain,
        verdict: Verdict::Accept,
        log: false,
    })
}

// What says by two codes of one type of ICMP that a destination is unreachable.
#[tactic(auto, using(acl_platform::proofs::SoundRules::sized_by))]
pub(crate) fn unreachable(alloc: Global) -> Result<Rule, Memory>
    ensures { IfOk result IsSized }
{
    let mut rule = open_rule(alloc, b"unreachable")?;
    rule.protos = RangeSet::from_ranges(alloc, 255, &[Range { low: 1, high: 1 }])?;
    rule.itypes = RangeSet::from_ranges(alloc, 255, &[Range { low: 3, high: 3 }])?;
    rule.icodes = RangeSet::from_ranges(alloc, 255, &[Range { low: 3, high: 4 }])?;
    Ok(rule)
}
