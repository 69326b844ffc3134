ghost use Rattle.std.specs.Prelude.{◌≡◌, ◌∷◌, [], IfSome, IsTrue, flat_map};
ghost use Rattle.acl_text.specs.Puts.{Puts};
ghost use Rattle.acl_rows.specs.Rows.{text_of_rows};
ghost use Rattle.acl_platform.specs.Combinations.{IsSized};
ghost use Rattle.ipt_lang.specs.declared.documents.Act.TheVariants.{Log};
ghost use Rattle.ipt_lang.specs.RuleLines.{rule_front, rule_source};
ghost use Rattle.ipt_lang.specs.Texts.{range_word, rule_rows};
ghost use Rattle.ipt_lang.proofs.LineLaws.{line_of_parts};
ghost use Rattle.gen_iptables.specs.TailSteps.{IsOnlyTail, tail_of, tailed_back, tailed_rule};
ghost use Rattle.gen_iptables.specs.ChainRowSteps.{
  combination_rows,
  rows_behind_front,
  rows_behind_ports,
  rows_behind_sources,
};
ghost use Rattle.gen_iptables.specs.Sections.{
  address_of,
  asks_state,
  backs,
  chain_rule,
  chain_rules,
  ends_of,
  flag_choices,
  fronts,
};

use crate::groups::{GroupForm, one_group, put_groups};
use acl_packet::{Family, Hook, Prefix};
use acl_platform::{AddressForm, Choices, NumberChoices, Rule, Test, put_address_pairs};
use acl_rows::{Piece, PortRange, RowForm, Rows, WordForm, Words};
use acl_sets::{Prefixes, Range};
use acl_text::{Out, PutFault};
use ipt_lang::{Act, Flags, PortLists, RuleBack, RuleFront, RuleRow, RuleSource};

// What stands before the ports of a rule, and what behind.
type Front = (Option<u8>, (Prefix, Prefix));

type Back = (Option<u8>, (Option<u8>, Option<Flags>));

type FrontChoices<'a> = (NumberChoices<'a>, (&'a Prefixes, &'a Prefixes));

type BackChoices<'a> = (
    NumberChoices<'a>,
    (NumberChoices<'a>, &'static [Option<Flags>]),
);

/// The protocols and addresses of a rule.
#[tactic(auto, using(acl_platform::proofs::SoundRules::protocols_small))]
pub(crate) fn fronts_of(rule: &Rule) -> FrontChoices<'_>
    requires { IsSized rule.now }
    ensures { ⟦<FrontChoices<'static> as Choices>⟧.items result ≡ fronts rule.now }
{
    let protocols = NumberChoices { set: &rule.protos };
    (protocols, (&rule.src, &rule.dst))
}

/// The types, codes and flags of a rule.
#[tactic(auto, using(acl_platform::proofs::SoundRules::types_small, acl_platform::proofs::SoundRules::codes_small))]
pub(crate) fn backs_of(rule: &Rule) -> BackChoices<'_>
    requires { IsSized rule.now }
    ensures { ⟦<BackChoices<'static> as Choices>⟧.items result ≡ backs rule.now }
{
    let types = NumberChoices { set: &rule.itypes };
    let codes = NumberChoices { set: &rule.icodes };
    (types, (codes, flag_choices(rule.test)))
}

fn flag_choices(test: Test) -> &'static [Option<Flags>]
    ensures { result.now ≡ flag_choices test }
{
    match test {
        Test::Plain | Test::State => &[None],
        Test::AckOrRst => &[Some(Flags::Ack), Some(Flags::Rst)],
        Test::SynNotAck => &[Some(Flags::SynNotAck)],
        Test::Rst => &[Some(Flags::Rst)],
    }
}

/// The rules of a chain, for each combination of the rule that it comes from.
#[derive(Drop)]
pub struct ChainRules<'a> {
    pub hook: Hook,
    pub family: Family,
    pub rule: &'a Rule,
    pub ghost sized: { IsSized rule.now },
}

impl<'a> Rows for ChainRules<'a> {
    ghost rows = { λ c. flat_map (rule_rows c.hook c.family c.rule.now.name)
        (chain_rules c.rule.now) };

    fn put_rows<O: Out>(&self, out: &mut O) -> Result<(), PutFault> {
        match one_tail(self.rule) {
            Some(tail) => self.put_with_tail(tail, out),
            None => self.put_combinations(out),
        }
    }
}

impl<'a> ChainRules<'a> {
    // Puts the line of each rule, where they differ in protocol and addresses alone.
    fn put_with_tail<O: Out>(&self, tail: Tail<'_>, out: &mut O) -> Result<(), PutFault>
        requires open { IsTrue (O.is_open out.old) }
        requires alone { IsOnlyTail tail self.now.rule.now }
        ensures { Puts O.Out out.old out.new
            (text_of_rows (flat_map
            (rule_rows self.now.hook self.now.family self.now.rule.now.name)
            (chain_rules self.now.rule.now))) result }
    {
        put_address_pairs(self.rule, &WithTail { chain: self, tail }, out)
    }

    // Puts the lines of the rules of each combination.
    fn put_combinations<O: Out>(&self, out: &mut O) -> Result<(), PutFault>
        requires { IsTrue (O.is_open out.old) }
        ensures { Puts O.Out out.old out.new
            (text_of_rows (flat_map
            (rule_rows self.now.hook self.now.family self.now.rule.now.name)
            (chain_rules self.now.rule.now))) result }
    {
        fronts_of(self.rule).put_each(self, out)
    }

    // What a rule with the protocol begins with.
    fn front_of(&self, proto: Option<u8>) -> RuleFront<'_>
        ensures parts { result ≡ record {
          hook = self.now.hook;
          name = result.name;
          family = self.now.family;
          proto = proto;
        } }
        ensures name { result.name.now ≡ self.now.rule.now.name }
    {
        RuleFront {
            hook: self.hook,
            name: self.rule.name.as_slice(),
            family: self.family,
            proto,
        }
    }

    // What a rule with the destination, the tail and the act ends with.
    #[inline]
    fn back_of<'t>(
        &self,
        dst: Prefix,
        tail: &Tail<'t>,
        act: Act,
    ) -> RuleBack<PortLists<'t, Range, InRanges>>
        ensures { result ≡ record {
          family = self.now.family;
          dst = address_of dst;
          ports = record {
            sports = tail.now.sports;
            dports = tail.now.dports;
            form = result.ports.form;
          };
          itype = tail.now.back.0;
          icode = tail.now.back.1.0;
          flags = tail.now.back.1.1;
          state = asks_state self.now.rule.now.test;
          act = act;
        } }
    {
        let (itype, (icode, flags)) = tail.back;
        let ports = PortLists {
            sports: tail.sports,
            dports: tail.dports,
            form: InRanges,
        };
        RuleBack {
            family: self.family,
            dst: address_of(dst),
            ports,
            itype,
            icode,
            flags,
            state: asks_state(self.rule.test),
            act,
        }
    }
}

// The ports, type, code and flags of a rule of the chain.
#[derive(Clone, Copy)]
struct Tail<'a> {
    sports: &'a [Range],
    dports: &'a [Range],
    back: Back,
}

// The tail of all rules of the chain, where they have the same and none of them logs.
#[tactic(auto, using(acl_platform::proofs::SoundRules::source_ports_small, acl_platform::proofs::SoundRules::destination_ports_small))]
fn one_tail(rule: &Rule) -> Option<Tail<'_>>
    requires { IsSized rule.now }
    ensures { IfSome result (λ tail. IsOnlyTail tail rule.now) }
{
    if rule.log || !rule.itypes.is_all() || !rule.icodes.is_all() {
        return None;
    }
    let sports = one_group(&rule.sports)?;
    let dports = one_group(&rule.dports)?;
    let flags = one_choice(rule.test)?;
    Some(Tail {
        sports,
        dports,
        back: (None, (None, flags)),
    })
}

// The choice of flags, where the test has one.
fn one_choice(test: Test) -> Option<Option<Flags>>
    ensures { IfSome result (λ flags. flag_choices test ≡ flags ∷ []) }
{
    match flag_choices(test) {
        [flags] => Some(*flags),
        _ => None,
    }
}

// A protocol and addresses, as the rule of the chain that has them with the tail.
#[derive(Drop)]
struct WithTail<'a, 't> {
    chain: &'a ChainRules<'a>,
    tail: Tail<'t>,
}

impl<'a, 't> AddressForm for WithTail<'a, 't> {
    ghost rows = { λ w front. rule_rows w.chain.now.hook w.chain.now.family
        w.chain.now.rule.now.name (tailed_rule w.chain.now.rule.now w.tail front) };

    ghost front = { λ w proto.
        rule_front w.chain.now.hook w.chain.now.rule.now.name w.chain.now.family proto };

    ghost source = { λ w proto src. rule_source (address_of src) };

    ghost back = { λ w dst. tailed_back w.chain.now.family w.chain.now.rule.now w.tail dst };

    fn put_front<O: Out>(&self, proto: Option<u8>, out: &mut O) -> Result<(), PutFault> {
        self.chain.front_of(proto).put_into(out)
    }

    #[inline]
    fn put_source<O: Out>(
        &self,
        _proto: Option<u8>,
        src: &Prefix,
        out: &mut O,
    ) -> Result<(), PutFault> {
        source_of(*src).put_spaced(out)
    }

    #[inline]
    fn put_back<O: Out>(&self, dst: &Prefix, out: &mut O) -> Result<(), PutFault> {
        let act = Act::Decide(self.chain.rule.verdict);
        self.chain.back_of(*dst, &self.tail, act).put_into(out)
    }

    ghost is_parts = { λ w proto src dst. line_of_parts w.chain.now.hook w.chain.now.family
        w.chain.now.rule.now.name
        (tailed_rule w.chain.now.rule.now w.tail (proto, (src, dst))) };
}

// A protocol and addresses, with each group of source ports.
impl<'a> RowForm<Front> for ChainRules<'a> {
    ghost item_rows = { λ c front. rows_behind_front c.hook c.family c.rule.now front };

    #[tactic(auto, using(acl_platform::proofs::SoundRules::source_ports_small))]
    fn put_item<O: Out>(&self, front: &Front, out: &mut O) -> Result<(), PutFault> {
        let form = BehindFront {
            chain: self,
            front: *front,
        };
        put_groups(&self.rule.sports, &form, out)
    }
}

// A group of source ports, with each one of destination ports.
#[derive(Drop)]
struct BehindFront<'a> {
    chain: &'a ChainRules<'a>,
    front: Front,
}

impl<'a> GroupForm for BehindFront<'a> {
    ghost group_rows = { λ f sports. rows_behind_sources f.chain.now.hook f.chain.now.family
        f.chain.now.rule.now f.front sports };

    #[tactic(auto, using(acl_platform::proofs::SoundRules::destination_ports_small))]
    fn put_group<O: Out>(&self, group: &[Range], out: &mut O) -> Result<(), PutFault> {
        let form = BehindSources {
            chain: self.chain,
            front: self.front,
            sports: group,
        };
        put_groups(&self.chain.rule.dports, &form, out)
    }
}

// A group of destination ports, with each type, each code and each choice of flags.
#[derive(Drop)]
struct BehindSources<'a> {
    chain: &'a ChainRules<'a>,
    front: Front,
    sports: &'a [Range],
}

impl<'a> GroupForm for BehindSources<'a> {
    ghost group_rows = { λ f dports. rows_behind_ports f.chain.now.hook f.chain.now.family
        f.chain.now.rule.now f.front f.sports.now dports };

    fn put_group<O: Out>(&self, group: &[Range], out: &mut O) -> Result<(), PutFault> {
        let form = BehindPorts {
            chain: self.chain,
            front: self.front,
            sports: self.sports,
            dports: group,
        };
        backs_of(self.chain.rule).put_each(&form, out)
    }
}

// A type, a code and a choice of flags, as one combination.
#[derive(Drop)]
struct BehindPorts<'a> {
    chain: &'a ChainRules<'a>,
    front: Front,
    sports: &'a [Range],
    dports: &'a [Range],
}

impl<'a> RowForm<Back> for BehindPorts<'a> {
    ghost item_rows = { λ f back. combination_rows f.chain.now.hook f.chain.now.family
        f.chain.now.rule.now (f.front, (f.sports.now, (f.dports.now, back))) };

    fn put_item<O: Out>(&self, back: &Back, out: &mut O) -> Result<(), PutFault> {
        let tail = Tail {
            sports: self.sports,
            dports: self.dports,
            back: *back,
        };
        let last = OneRule {
            chain: self.chain,
            front: self.front,
            tail,
            act: Act::Decide(self.chain.rule.verdict),
        };
        if self.chain.rule.log {
            (last.logging(), last).put_rows(out)
        } else {
            last.put_rows(out)
        }
    }
}

// One rule of the chain.
#[derive(Drop)]
struct OneRule<'a> {
    chain: &'a ChainRules<'a>,
    front: Front,
    tail: Tail<'a>,
    act: Act,
}

impl<'a> OneRule<'a> {
    // The rule that logs what this one holds.
    fn logging(&self) -> OneRule<'a>
        ensures { result ≡ record {
          chain = self.now.chain;
          front = self.now.front;
          tail = self.now.tail;
          act = Log;
        } }
    {
        OneRule {
            chain: self.chain,
            front: self.front,
            tail: self.tail,
            act: Act::Log,
        }
    }
}

impl<'a> Rows for OneRule<'a> {
    ghost rows = { λ o. rule_rows o.chain.now.hook o.chain.now.family o.chain.now.rule.now.name
        (chain_rule o.chain.now.rule.now (o.front, tail_of o.tail) o.act) };

    fn put_rows<O: Out>(&self, out: &mut O) -> Result<(), PutFault> {
        let (proto, (src, dst)) = self.front;
        let row = RuleRow {
            front: self.chain.front_of(proto),
            source: source_of(src),
            back: self.chain.back_of(dst, &self.tail, self.act),
        };
        row.put_rows(out)
    }
}

#[inline]
fn source_of(src: Prefix) -> RuleSource
    ensures { result ≡ record { address = address_of src } }
{
    RuleSource {
        address: address_of(src),
    }
}

#[inline]
fn address_of(prefix: Prefix) -> Option<Prefix>
    ensures { result ≡ address_of prefix }
{
    if prefix.len == 0 { None } else { Some(prefix) }
}

fn asks_state(test: Test) -> bool
    ensures { result ≡ asks_state test }
{
    matches!(test, Test::State)
}

// A range of ports, with a colon between its ends.
#[derive(Clone, Copy)]
struct InRanges;

impl WordForm<Range> for InRanges {
    ghost item_text = { λ f range. range_word (ends_of range) };

    fn put_item_into<O: Out>(&self, range: &Range, out: &mut O) -> Result<(), PutFault> {
        let range = PortRange {
            low: range.low,
            high: range.high,
            separator: b':',
        };
        range.put_into(out)
    }
}
