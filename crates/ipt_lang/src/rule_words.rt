ghost use Rattle.std.specs.Prelude.{◌≡◌, ◌∷◌, [], ◌++◌, IsTrue, codes};
ghost use Rattle.acl_text.specs.Puts.{Puts};
ghost use Rattle.ipt_lang.specs.Texts.{act_words, address_words, back_words, flags_words, icmp_word, is_reset, mask_word, proto_word, proto_words, reset_words, set_word, state_words, target_word, type_key, type_word, type_words};

use crate::documents::{Act, Flags};
use acl_packet::{Family, Prefix, Verdict};
use acl_rows::{Number, OneWord, Piece, Words, put_words};
use acl_text::{Out, PutFault};

/// The protocol of a rule, where it is named.
#[derive(Drop)]
pub(crate) struct Protocol {
    pub(crate) family: Family,
    pub(crate) number: Option<u8>,
}

impl Words for Protocol {
    ghost words = { λ p. proto_words p.family p.number };

    #[tactic(auto, unfolding(crate::specs::Texts::proto_words))]
    #[inline]
    fn put_spaced<O: Out>(&self, out: &mut O) -> Result<(), PutFault> {
        match self.number {
            Some(number) => {
                let name = ProtocolName {
                    family: self.family,
                    number,
                };
                put_keyed(b" -p ", name, out)
            }
            None => Ok(()),
        }
    }
}

#[derive(Drop)]
struct ProtocolName {
    family: Family,
    number: u8,
}

impl Piece for ProtocolName {
    ghost text = { λ p. proto_word p.family p.number };

    #[tactic(auto, unfolding(crate::specs::Texts::proto_word))]
    #[inline]
    fn put_into<O: Out>(&self, out: &mut O) -> Result<(), PutFault> {
        if self.number == 6 {
            out.put(b"tcp")
        } else if self.number == 17 {
            out.put(b"udp")
        } else if self.number == 132 {
            out.put(b"sctp")
        } else if self.number == self.family.icmp_number() {
            out.put(icmp_word(self.family))
        } else {
            let number = u128::from(self.number);
            Number { number }.put_into(out)
        }
    }
}

#[inline]
fn icmp_word(family: Family) -> &'static [u8]
    ensures { result.now ≡ icmp_word family }
{
    match family {
        Family::V4 => b"icmp",
        Family::V6 => b"icmpv6",
    }
}

/// The destination of a rule, where it asks for some addresses.
#[derive(Drop)]
pub(crate) struct DestinationWords {
    pub(crate) address: Option<Prefix>,
}

impl Words for DestinationWords {
    ghost words = { λ d. address_words (codes "-d") d.address };

    #[tactic(auto, unfolding(crate::specs::Texts::address_words))]
    #[inline]
    fn put_spaced<O: Out>(&self, out: &mut O) -> Result<(), PutFault> {
        match self.address {
            Some(prefix) => put_keyed(b" -d ", prefix, out),
            None => Ok(()),
        }
    }
}

/// Puts a word and the one that it names, by two puts; the key is the first between two spaces.
// Inlined, so that the key has a known length where it is put.
#[inline(always)]
pub(crate) fn put_keyed<P: Piece + Drop, O: Out>(
    key: &[u8],
    piece: P,
    out: &mut O,
) -> Result<(), PutFault>
    requires { IsTrue (O.is_open out.old) }
    ensures { Puts O.Out out.old out.new (key.now ++ (P.text piece ++ [])) result }
{
    out.put(key)?;
    piece.put_into(out)
}

/// What stands behind the ports of a rule: its tests and its act.
#[derive(Drop)]
pub(crate) struct TestWords {
    pub(crate) family: Family,
    pub(crate) itype: Option<u8>,
    pub(crate) icode: Option<u8>,
    pub(crate) flags: Option<Flags>,
    pub(crate) state: bool,
    pub(crate) act: Act,
}

impl Words for TestWords {
    ghost words = { λ b. back_words b.family b.itype b.icode b.flags b.state b.act };

    #[tactic(auto, unfolding(crate::specs::Texts::back_words))]
    #[inline]
    fn put_spaced<O: Out>(&self, out: &mut O) -> Result<(), PutFault> {
        let itype = TypeWords {
            family: self.family,
            itype: self.itype,
            icode: self.icode,
        };
        let flags = FlagsWords { flags: self.flags };
        let state = StateWords { state: self.state };
        let act = ActWords { act: self.act };
        (itype, (flags, (state, act))).put_spaced(out)
    }
}

#[derive(Drop)]
struct TypeWords {
    family: Family,
    itype: Option<u8>,
    icode: Option<u8>,
}

impl Words for TypeWords {
    ghost words = { λ t. type_words t.family t.itype t.icode };

    #[tactic(auto, unfolding(crate::specs::Texts::type_words))]
    #[inline]
    fn put_spaced<O: Out>(&self, out: &mut O) -> Result<(), PutFault> {
        match self.itype {
            Some(number) => {
                let key = OneWord {
                    piece: type_key(self.family),
                };
                let itype = OneWord {
                    piece: TypeWord {
                        number,
                        code: self.icode,
                    },
                };
                (key, itype).put_spaced(out)
            }
            None => Ok(()),
        }
    }
}

// A type alone, or with a `/` between it and its code.
#[derive(Drop)]
struct TypeWord {
    number: u8,
    code: Option<u8>,
}

impl Piece for TypeWord {
    ghost text = { λ t. type_word t.number t.code };

    #[tactic(auto, unfolding(crate::specs::Texts::type_word))]
    #[inline]
    fn put_into<O: Out>(&self, out: &mut O) -> Result<(), PutFault> {
        let number = Number {
            number: u128::from(self.number),
        };
        match self.code {
            Some(code) => {
                let slash: &[u8] = b"/";
                let number_of_code = Number {
                    number: u128::from(code),
                };
                (number, (slash, number_of_code)).put_into(out)
            }
            None => number.put_into(out),
        }
    }
}

#[inline]
fn type_key(family: Family) -> &'static [u8]
    ensures { result.now ≡ type_key family }
{
    match family {
        Family::V4 => b"--icmp-type",
        Family::V6 => b"--icmpv6-type",
    }
}

#[derive(Drop)]
struct FlagsWords {
    flags: Option<Flags>,
}

impl Words for FlagsWords {
    ghost words = { λ f. flags_words f.flags };

    #[tactic(auto, unfolding(crate::specs::Texts::flags_words))]
    #[inline]
    fn put_spaced<O: Out>(&self, out: &mut O) -> Result<(), PutFault> {
        match self.flags {
            Some(flags) => {
                let words: &[&[u8]] = &[b"--tcp-flags", mask_word(flags), set_word(flags)];
                words.put_spaced(out)
            }
            None => Ok(()),
        }
    }
}

#[inline]
fn mask_word(flags: Flags) -> &'static [u8]
    ensures { result.now ≡ mask_word flags }
{
    match flags {
        Flags::Ack => b"ACK",
        Flags::Rst => b"RST",
        Flags::SynNotAck => b"SYN,ACK",
    }
}

#[inline]
fn set_word(flags: Flags) -> &'static [u8]
    ensures { result.now ≡ set_word flags }
{
    match flags {
        Flags::Ack => b"ACK",
        Flags::Rst => b"RST",
        Flags::SynNotAck => b"SYN",
    }
}

#[derive(Drop)]
struct StateWords {
    state: bool,
}

impl Words for StateWords {
    ghost words = { λ s. state_words s.state };

    #[tactic(auto, unfolding(crate::specs::Texts::state_words))]
    #[inline]
    fn put_spaced<O: Out>(&self, out: &mut O) -> Result<(), PutFault> {
        if self.state {
            put_words(&[b"-m", b"state", b"--state", b"ESTABLISHED,RELATED"], out)
        } else {
            Ok(())
        }
    }
}

#[derive(Drop)]
struct ActWords {
    act: Act,
}

impl Words for ActWords {
    ghost words = { λ a. act_words a.act };

    #[tactic(auto, unfolding(crate::specs::Texts::act_words))]
    #[inline]
    fn put_spaced<O: Out>(&self, out: &mut O) -> Result<(), PutFault> {
        let target = TargetWords { act: self.act };
        let reset = is_reset(self.act);
        (target, ResetWords { reset }).put_spaced(out)
    }
}

#[derive(Drop)]
struct TargetWords {
    act: Act,
}

impl Words for TargetWords {
    ghost words = { λ t. codes "-j" ∷ target_word t.act ∷ [] };

    #[inline]
    fn put_spaced<O: Out>(&self, out: &mut O) -> Result<(), PutFault> {
        match self.act {
            Act::Log => out.put(b" -j LOG"),
            Act::Decide(Verdict::Accept) => out.put(b" -j ACCEPT"),
            Act::Decide(Verdict::Deny | Verdict::Left) => out.put(b" -j DROP"),
            Act::Decide(Verdict::Reject | Verdict::Reset) => out.put(b" -j REJECT"),
        }
    }
}

#[inline]
fn is_reset(act: Act) -> bool
    ensures { result ≡ is_reset act }
{
    match act {
        Act::Decide(Verdict::Reset) => true,
        _ => false,
    }
}

#[derive(Drop)]
struct ResetWords {
    reset: bool,
}

impl Words for ResetWords {
    ghost words = { λ r. reset_words r.reset };

    #[tactic(auto, unfolding(crate::specs::Texts::reset_words))]
    #[inline]
    fn put_spaced<O: Out>(&self, out: &mut O) -> Result<(), PutFault> {
        if self.reset {
            put_words(&[b"--reject-with", b"tcp-reset"], out)
        } else {
            Ok(())
        }
    }
}
