ghost use Rattle.std.specs.Prelude.{◌≡◌, ◌++◌, IfOk, OnOk};
ghost use Rattle.acl_text.specs.Cuts.{cut_at};
ghost use Rattle.acl_text.specs.PortRanges.{ports_in};
ghost use Rattle.ipt_lang.specs.ReadingSteps.{act_in, draft, flags_in, named_proto_in, next_in, no_rule, one_or_none, proto_in, ranges_in, rule_in, take_word, with_address, with_ports, with_type, with_value, with_word};

use crate::documents::{Act, Flags, Rule};
use acl_packet::{Family, Verdict};
use acl_rows::{End, RowWords};
use acl_text::{Items, Memory, read_ports, read_spelled_prefix, read_u8, split_at_byte};
use std::alloc::Global;

/// What the next word of a rule is.
#[derive(Clone, Copy)]
pub(crate) enum Next {
    Keyword,
    Protocol,
    Address(End),
    Ports(End),
    IcmpType,
    Mask,
    Target,
}

/// What has been read of a rule's words.
#[derive(Drop)]
struct RuleDraft {
    family: Family,
    rule: Rule,
    next: Next,
}

/// The rule of the words, for packets of the family. No words are refused: what means nothing changes
/// nothing.
#[tactic(auto, unfolding(crate::specs::ReadingSteps::rule_in))]
pub(crate) fn rule_of(alloc: Global, family: Family, words: RowWords<'_>) -> Result<Rule, Memory>
    ensures { IfOk result (λ r. r ≡ rule_in family words.entry) }
{
    let mut draft = RuleDraft {
        family,
        rule: no_rule(alloc),
        next: Next::Keyword,
    };
    let mut rest = words;
    while let Some(word) = rest.next() {
        draft.take_word(alloc, word)?;
    }
    Ok(draft.rule)
}

fn no_rule(alloc: Global) -> Rule
    ensures { result ≡ no_rule }
{
    Rule {
        proto: None,
        src: None,
        dst: None,
        sports: Items::new(alloc),
        dports: Items::new(alloc),
        itype: None,
        icode: None,
        flags: None,
        state: false,
        act: Act::Decide(Verdict::Deny),
    }
}

impl RuleDraft {
    fn take_word(&mut self, alloc: Global, word: &[u8]) -> Result<(), Memory>
        ensures { OnOk result (self.new ≡ take_word self.old word.now) }
    {
        let next = self.next;
        self.next = match next {
            Next::Keyword => next_of(word),
            _ => Next::Keyword,
        };
        self.rule.take_value(alloc, self.family, next, word)
    }
}

impl Rule {
    #[tactic(auto, unfolding(crate::specs::ReadingSteps::with_value))]
    fn take_value(
        &mut self,
        alloc: Global,
        family: Family,
        next: Next,
        word: &[u8],
    ) -> Result<(), Memory>
        ensures { OnOk result (self.new ≡ with_value family next word.now self.old) }
    {
        match next {
            Next::Keyword => self.take_keyword(word),
            Next::Protocol => self.proto = protocol_of(word),
            Next::Address(end) => self.take_address(family, end, word),
            Next::Ports(end) => return self.take_ports(alloc, end, word),
            Next::IcmpType => self.take_type(word),
            Next::Mask => self.flags = Some(flags_of(word)),
            Next::Target => self.act = act_of(word),
        }
        Ok(())
    }

    #[tactic(auto, unfolding(crate::specs::ReadingSteps::with_word))]
    fn take_keyword(&mut self, word: &[u8])
        ensures { self.new ≡ with_word word.now self.old }
    {
        if word == b"--state".as_slice() {
            self.state = true;
        } else if word == b"tcp-reset".as_slice() {
            self.act = Act::Decide(Verdict::Reset);
        }
    }

    fn take_address(&mut self, family: Family, end: End, word: &[u8])
        ensures { self.new ≡ with_address family end word.now self.old }
    {
        match end {
            End::Source => self.src = read_spelled_prefix(family, word),
            End::Destination => self.dst = read_spelled_prefix(family, word),
        }
    }

    // The type of the word, and the code behind a `/`.
    fn take_type(&mut self, word: &[u8])
        ensures { self.new ≡ with_type word.now (cut_at 47 word.now) self.old }
    {
        match split_at_byte(word, b'/') {
            Some((itype, icode)) => {
                self.itype = read_u8(itype, 254);
                self.icode = read_u8(icode, 255);
            }
            None => self.itype = read_u8(word, 254),
        }
    }

    fn take_ports(&mut self, alloc: Global, end: End, word: &[u8]) -> Result<(), Memory>
        ensures { OnOk result (self.new ≡ with_ports end word.now self.old) }
    {
        match end {
            End::Source => self.sports = ranges_of(alloc, word)?,
            End::Destination => self.dports = ranges_of(alloc, word)?,
        }
        Ok(())
    }
}

// The ranges of a word, with commas between.
#[tactic(auto, using(crate::proofs::RuleReadingLaws::more_ranges, crate::proofs::RuleReadingLaws::last_range, acl_rows::proofs::RowLaws::rest_is_shorter))]
fn ranges_of(alloc: Global, word: &[u8]) -> Result<Items<(u16, u16)>, Memory>
    ensures { IfOk result (λ ranges. ranges ≡ ranges_in word.now) }
{
    let mut ranges = Items::new(alloc);
    let mut rest = word;
    while let Some((part, behind)) = split_at_byte(rest, b',') {
        push_range(&mut ranges, part)?;
        rest = behind;
    }
    push_range(&mut ranges, rest)?;
    Ok(ranges)
}

// Adds the range of the word, if it is one.
fn push_range(ranges: &mut Items<(u16, u16)>, word: &[u8]) -> Result<(), Memory>
    ensures { OnOk result (ranges.new ≡ ranges.old ++ one_or_none (ports_in 58 word.now)) }
{
    match read_ports(word, b':') {
        Some(ports) => ranges.push(ports),
        None => Ok(()),
    }
}

fn protocol_of(word: &[u8]) -> Option<u8>
    ensures { result ≡ proto_in word.now }
{
    match read_u8(word, 255) {
        Some(number) => Some(number),
        None => named_protocol(word),
    }
}

#[tactic(auto, unfolding(crate::specs::ReadingSteps::named_proto_in))]
fn named_protocol(word: &[u8]) -> Option<u8>
    ensures { result ≡ named_proto_in word.now }
{
    if word == b"tcp".as_slice() {
        Some(6)
    } else if word == b"udp".as_slice() {
        Some(17)
    } else if word == b"sctp".as_slice() {
        Some(132)
    } else if word == b"icmp".as_slice() {
        Some(1)
    } else if word == b"icmpv6".as_slice() {
        Some(58)
    } else {
        None
    }
}

fn flags_of(word: &[u8]) -> Flags
    ensures { result ≡ flags_in word.now }
{
    if word == b"ACK".as_slice() {
        Flags::Ack
    } else if word == b"RST".as_slice() {
        Flags::Rst
    } else {
        Flags::SynNotAck
    }
}

#[tactic(auto, unfolding(crate::specs::ReadingSteps::act_in))]
fn act_of(word: &[u8]) -> Act
    ensures { result ≡ act_in word.now }
{
    if word == b"LOG".as_slice() {
        Act::Log
    } else if word == b"ACCEPT".as_slice() {
        Act::Decide(Verdict::Accept)
    } else if word == b"REJECT".as_slice() {
        Act::Decide(Verdict::Reject)
    } else {
        Act::Decide(Verdict::Deny)
    }
}

#[tactic(auto, unfolding(crate::specs::ReadingSteps::next_in))]
fn next_of(word: &[u8]) -> Next
    ensures { result ≡ next_in word.now }
{
    if word == b"-p".as_slice() {
        Next::Protocol
    } else if word == b"-s".as_slice() {
        Next::Address(End::Source)
    } else if word == b"-d".as_slice() {
        Next::Address(End::Destination)
    } else if word == b"--sport".as_slice() || word == b"--sports".as_slice() {
        Next::Ports(End::Source)
    } else if word == b"--dport".as_slice() || word == b"--dports".as_slice() {
        Next::Ports(End::Destination)
    } else if word == b"--icmp-type".as_slice() || word == b"--icmpv6-type".as_slice() {
        Next::IcmpType
    } else if word == b"--tcp-flags".as_slice() {
        Next::Mask
    } else if word == b"-j".as_slice() {
        Next::Target
    } else {
        Next::Keyword
    }
}
