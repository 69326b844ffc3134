ghost use Rattle.std.specs.Prelude.{◌≡◌, ◌++◌, [], ◌∷◌, IfOk, OnOk, map, flat_map};
ghost use Rattle.acl_sets.specs.Ranges.{holds};
ghost use Rattle.acl_terms.specs.Outcomes.{cisco_verdict, mode_of};
ghost use Rattle.acl_terms.specs.Resolved.{destinations_on, is_term_live, sources_on, sports_on};
ghost use Rattle.acl_expand.specs.TermRules.{
  address_suffix,
  conditions_by,
  established_conditions,
  family_rules,
  least_list,
  members,
  pair_rules,
  port_suffix,
  rule_of,
  tcp_half,
  term_rules,
  udp_alone,
  udp_half,
  verdict_on,
  whole,
  with_ports,
};

use crate::conditions::{Conditions, tcp_half, udp_alone, udp_half, whole};
use acl_host::Day;
use acl_packet::{Families, Family, Verdict};
use acl_platform::{Rule, Rules, Test};
use acl_sets::{Prefixes, RangeSet, least_prefixes};
use acl_target::{Kind, Target};
use acl_terms::{
    Mode, Opt, Side, SidePair, Term, destination_in, either_in, is_live, is_pair_empty, pairs_of,
    source_in, sports_on,
};
use acl_text::{Bytes, Memory};
use std::alloc::Global;

fn cisco_verdict(verdict: Verdict) -> Verdict
    ensures { result ≡ cisco_verdict verdict }
{
    match verdict {
        Verdict::Reject | Verdict::Reset => Verdict::Deny,
        Verdict::Accept | Verdict::Deny | Verdict::Left => verdict,
    }
}

pub(crate) fn verdict_on(kind: Kind, verdict: Verdict) -> Verdict
    ensures { result ≡ verdict_on kind verdict }
{
    match kind {
        Kind::Cisco => cisco_verdict(verdict),
        Kind::Juniper | Kind::Iptables | Kind::Nftables => verdict,
    }
}

// The least list of the term's sources on the side, in the family.
#[tactic(auto, using(acl_terms::proofs::SideLaws::source_tops, crate::proofs::SideForms::source_end))]
fn sources(alloc: Global, family: Family, term: &Term, side: Side) -> Result<Prefixes, Memory>
    ensures { IfOk result (λ ps. ps ≡ least_list family (sources_on side family term.now)) }
{
    let set = source_in(family, term);
    match side {
        Side::Source => least_prefixes(&set.intersect(alloc, either_in(family, term))?, family),
        Side::Whole | Side::Destination => least_prefixes(set, family),
    }
}

// The least list of its destinations on the side.
#[tactic(auto, using(acl_terms::proofs::SideLaws::destination_tops, crate::proofs::SideForms::destination_end))]
fn destinations(alloc: Global, family: Family, term: &Term, side: Side) -> Result<Prefixes, Memory>
    ensures { IfOk result (λ ps. ps ≡ least_list family (destinations_on side family term.now)) }
{
    let set = destination_in(family, term);
    match side {
        Side::Destination => least_prefixes(
            &set.intersect(alloc, either_in(family, term))?,
            family,
        ),
        Side::Whole | Side::Source => least_prefixes(set, family),
    }
}

fn address_suffix(side: Side) -> &'static [u8]
    ensures { result.now ≡ address_suffix side }
{
    match side {
        Side::Whole => b"",
        Side::Source => b"-src",
        Side::Destination => b"-dst",
    }
}

fn port_suffix(side: Side) -> &'static [u8]
    ensures { result.now ≡ port_suffix side }
{
    match side {
        Side::Whole => b"",
        Side::Source => b"-sport",
        Side::Destination => b"-dport",
    }
}

fn rule_name(alloc: Global, term: &Term, pair: SidePair, suffix: &Bytes) -> Result<Bytes, Memory>
    ensures { IfOk result (λ b. b ≡ term.now.name
        ++ (address_suffix pair.addresses ++ (port_suffix pair.ports ++ suffix.now))) }
{
    let mut name = Bytes::from_slice(alloc, term.name.as_slice())?;
    push_suffix(&mut name, address_suffix(pair.addresses))?;
    push_suffix(&mut name, port_suffix(pair.ports))?;
    push_suffix(&mut name, suffix.as_slice())?;
    Ok(name)
}

// Adds the suffix at the end. Most rules have none.
#[inline]
fn push_suffix(name: &mut Bytes, suffix: &[u8]) -> Result<(), Memory>
    ensures { OnOk result (name.new ≡ name.old ++ suffix.now) }
{
    if suffix.is_empty() {
        Ok(())
    } else {
        name.push_all(suffix)
    }
}

// A term in one of its families on a pair of its sides, on a platform of the kind.
#[derive(Clone, Copy)]
struct PairTerm<'a> {
    kind: Kind,
    family: Family,
    term: &'a Term,
    pair: SidePair,
}

impl<'a> PairTerm<'a> {
    // The name of a rule with the suffix, and its note.
    fn texts(&self, alloc: Global, suffix: &Bytes) -> Result<(Bytes, Bytes), Memory>
        ensures { IfOk result (λ both. both ≡ (
          self.now.term.now.name
              ++ (address_suffix self.now.pair.addresses ++ (port_suffix self.now.pair.ports ++ suffix.now)),
          self.now.term.now.note,
        )) }
    {
        let name = rule_name(alloc, self.term, self.pair, suffix)?;
        Ok((name, Bytes::from_slice(alloc, self.term.note.as_slice())?))
    }

    // The least lists of its sources and of its destinations.
    fn ends(&self, alloc: Global) -> Result<(Prefixes, Prefixes), Memory>
        ensures { IfOk result (λ both. both
            ≡ (
              least_list self.now.family (sources_on self.now.pair.addresses self.now.family self.now.term.now),
              least_list self.now.family (destinations_on self.now.pair.addresses self.now.family self.now.term.now),
            )) }
    {
        let side = self.pair.addresses;
        let src = sources(alloc, self.family, self.term, side)?;
        Ok((src, destinations(alloc, self.family, self.term, side)?))
    }

    // Its source ports, its types and its codes.
    fn sets(&self, alloc: Global) -> Result<(RangeSet, RangeSet, RangeSet), Memory>
        ensures { IfOk result (λ all. all ≡ (
          sports_on self.now.pair.ports self.now.term.now,
          self.now.term.now.itypes,
          self.now.term.now.icodes,
        )) }
    {
        let sports = sports_on(alloc, self.pair.ports, self.term)?;
        let itypes = self.term.itypes.share()?;
        Ok((sports, itypes, self.term.icodes.share()?))
    }

    // Adds the rule of the term with the conditions at the end.
    fn push(&self, alloc: Global, rules: &mut Rules, conditions: Conditions) -> Result<(), Memory>
        ensures { OnOk result (rules.new ≡ rules.old ++ rule_of self.now.kind self.now.family
            self.now.term.now self.now.pair conditions ∷ []) }
    {
        let (name, note) = self.texts(alloc, &conditions.suffix)?;
        let (src, dst) = self.ends(alloc)?;
        let (sports, itypes, icodes) = self.sets(alloc)?;
        // The rule is large, and made where it is pushed.
        rules.push(Rule {
            name,
            place: self.term.place,
            note,
            family: self.family,
            src,
            dst,
            protos: conditions.protos,
            sports,
            dports: conditions.dports,
            itypes,
            icodes,
            test: conditions.test,
            verdict: verdict_on(self.kind, self.term.verdict),
            log: self.term.log,
        })
    }

    // The same, where the conditions leave some destination port.
    fn push_with_ports(
        &self,
        alloc: Global,
        rules: &mut Rules,
        conditions: Conditions,
    ) -> Result<(), Memory>
        ensures { OnOk result (rules.new ≡ rules.old
            ++ map (rule_of self.now.kind self.now.family self.now.term.now self.now.pair)
            (with_ports conditions)) }
    {
        if conditions.dports.is_empty() {
            Ok(())
        } else {
            self.push(alloc, rules, conditions)
        }
    }

    // The same with the term's own protocols and ports, and a test.
    fn push_whole(&self, alloc: Global, rules: &mut Rules, test: Test) -> Result<(), Memory>
        ensures { OnOk result (rules.new ≡ rules.old ++ rule_of self.now.kind self.now.family
            self.now.term.now self.now.pair
            (whole self.now.family self.now.term.now self.now.pair.ports test) ∷ []) }
    {
        let conditions = whole(alloc, self.family, self.term, self.pair.ports, test)?;
        self.push(alloc, rules, conditions)
    }

    // The two rules of `established` over TCP and UDP, where connections are not known.
    fn push_halves(&self, alloc: Global, rules: &mut Rules) -> Result<(), Memory>
        ensures { OnOk result (rules.new ≡ rules.old
            ++ map (rule_of self.now.kind self.now.family self.now.term.now self.now.pair)
            (tcp_half self.now.term.now self.now.pair.ports
            ∷ with_ports (udp_half self.now.term.now self.now.pair.ports))) }
    {
        let tcp = tcp_half(alloc, self.term, self.pair.ports)?;
        self.push(alloc, rules, tcp)?;
        let udp = udp_half(alloc, self.term, self.pair.ports)?;
        self.push_with_ports(alloc, rules, udp)
    }

    fn push_udp(&self, alloc: Global, rules: &mut Rules) -> Result<(), Memory>
        ensures { OnOk result (rules.new ≡ rules.old
            ++ map (rule_of self.now.kind self.now.family self.now.term.now self.now.pair)
            (with_ports (udp_alone self.now.family self.now.term.now self.now.pair.ports))) }
    {
        let udp = udp_alone(alloc, self.family, self.term, self.pair.ports)?;
        self.push_with_ports(alloc, rules, udp)
    }

    // The rules of `established` where connections are not known.
    fn push_established(&self, alloc: Global, rules: &mut Rules) -> Result<(), Memory>
        ensures { OnOk result (rules.new ≡ rules.old
            ++ map (rule_of self.now.kind self.now.family self.now.term.now self.now.pair)
            (conditions_by Opt.Established Mode.Stateless self.now.family self.now.term.now
            self.now.pair.ports)) }
    {
        match (self.term.protos.contains(6), self.term.protos.contains(17)) {
            (true, true) => self.push_halves(alloc, rules),
            (true, false) => self.push_whole(alloc, rules, Test::AckOrRst),
            (false, _) => self.push_udp(alloc, rules),
        }
    }

    // The rules of the term on a pair of sides that is not empty in the family.
    fn push_by_option(&self, alloc: Global, rules: &mut Rules, mode: Mode) -> Result<(), Memory>
        ensures { OnOk result (rules.new ≡ rules.old
            ++ map (rule_of self.now.kind self.now.family self.now.term.now self.now.pair)
            (conditions_by self.now.term.now.option mode self.now.family self.now.term.now
            self.now.pair.ports)) }
    {
        let test = match (self.term.option, mode) {
            (Opt::Established, Mode::Stateless) => return self.push_established(alloc, rules),
            (Opt::Plain, _) => Test::Plain,
            (Opt::Established | Opt::TcpEstablished, Mode::Stateful) => Test::State,
            (Opt::TcpEstablished, Mode::Stateless) => Test::AckOrRst,
            (Opt::TcpInitial, _) => Test::SynNotAck,
            (Opt::Rst, _) => Test::Rst,
        };
        self.push_whole(alloc, rules, test)
    }
}

fn mode_of(target: &Target) -> Mode
    ensures { result ≡ mode_of target.now }
{
    if target.stateful {
        Mode::Stateful
    } else {
        Mode::Stateless
    }
}

// Adds the rules of the term in the family, on the pair of sides.
#[tactic(auto, unfolding(crate::specs::TermRules::pair_rules))]
fn push_pair(
    alloc: Global,
    rules: &mut Rules,
    target: &Target,
    family: Family,
    term: &Term,
    pair: SidePair,
) -> Result<(), Memory>
    ensures { OnOk result (rules.new ≡ rules.old ++ pair_rules target.now term.now family pair) }
{
    if is_pair_empty(term, family, pair) {
        return Ok(());
    }
    let term = PairTerm {
        kind: target.kind,
        family,
        term,
        pair,
    };
    term.push_by_option(alloc, rules, mode_of(target))
}

// Adds the rules of the term in the family, on each pair of its sides.
#[tactic(auto, unfolding(crate::specs::TermRules::family_rules))]
fn push_family(
    alloc: Global,
    rules: &mut Rules,
    target: &Target,
    family: Family,
    term: &Term,
) -> Result<(), Memory>
    ensures { OnOk result (rules.new ≡ rules.old ++ family_rules target.now term.now family) }
{
    let pairs = pairs_of(term);
    for pair in pairs {
        push_pair(alloc, rules, target, family, term, *pair)?;
    }
    Ok(())
}

// Adds the rules of the term in each family of the target.
fn push_families(
    alloc: Global,
    rules: &mut Rules,
    target: &Target,
    term: &Term,
) -> Result<(), Memory>
    ensures { OnOk result (rules.new ≡ rules.old
        ++ flat_map (family_rules target.now term.now) (members target.now.families)) }
{
    match target.families {
        Families::Inet => push_family(alloc, rules, target, Family::V4, term),
        Families::Inet6 => push_family(alloc, rules, target, Family::V6, term),
        Families::Mixed => {
            push_family(alloc, rules, target, Family::V4, term)?;
            push_family(alloc, rules, target, Family::V6, term)
        }
    }
}

/// Adds the rules of the term on the target, where it is live there that day.
#[tactic(auto, unfolding(crate::specs::TermRules::term_rules))]
pub(crate) fn push_term(
    alloc: Global,
    rules: &mut Rules,
    target: &Target,
    today: Day,
    term: &Term,
) -> Result<(), Memory>
    ensures { OnOk result (rules.new ≡ rules.old ++ term_rules target.now today term.now) }
{
    if !is_live(term, target.kind, today) {
        return Ok(());
    }
    push_families(alloc, rules, target, term)
}
