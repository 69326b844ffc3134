ghost use Rattle.std.specs.Prelude.{◌≡◌, ◌∷◌, decimal, map};
ghost use Rattle.acl_text.specs.AddressTexts.{prefix_text};
ghost use Rattle.acl_rows.specs.Rows.{spaced};
ghost use Rattle.nft_lang.specs.SetKeys.{key_front, key_word, set_opening};
ghost use Rattle.nft_lang.specs.Texts.{set_words};

use acl_packet::{Family, Prefix};
use acl_rows::{ItemsBehind, Listed, Number, OneItem, Piece, WordForm, Words};
use acl_text::{Out, PutFault, put_prefix, put_prefix_between};

/// A prefix as an element of a set.
#[derive(Clone, Copy)]
pub struct PrefixWord;

impl WordForm<Prefix> for PrefixWord {
    ghost item_text = { λ f p. prefix_text p };

    fn put_item_into<O: Out>(&self, prefix: &Prefix, out: &mut O) -> Result<(), PutFault> {
        put_prefix(out, prefix)
    }

    #[inline]
    fn put_item_behind<O: Out>(
        &self,
        front: &[u8],
        prefix: &Prefix,
        out: &mut O,
    ) -> Result<(), PutFault> {
        put_prefix_between(out, front, prefix, &[])
    }
}

/// A type or a code of ICMP.
#[derive(Clone, Copy)]
pub(crate) struct IcmpNumber;

impl WordForm<u8> for IcmpNumber {
    ghost item_text = { λ f n. decimal n };

    fn put_item_into<O: Out>(&self, number: &u8, out: &mut O) -> Result<(), PutFault> {
        let number = u128::from(*number);
        Number { number }.put_into(out)
    }
}

/// What the elements of a set are compared with: a part of a packet of the family, or of the protocol.
#[derive(Clone, Copy)]
pub enum SetKey {
    Source(Family),
    Destination(Family),
    SourcePort(Option<u8>),
    DestinationPort(Option<u8>),
    IcmpType(Family),
    IcmpCode(Family),
}

// What stands in front of the first element: the words of the key, and the brace, each between spaces.
#[tactic(auto, unfolding(crate::specs::Texts::port_word, crate::specs::SetKeys::set_opening))]
fn opening(key: SetKey) -> &'static [u8]
    ensures { result.now ≡ set_opening key }
{
    match key {
        SetKey::Source(Family::V4) => b" ip saddr { ",
        SetKey::Source(Family::V6) => b" ip6 saddr { ",
        SetKey::Destination(Family::V4) => b" ip daddr { ",
        SetKey::Destination(Family::V6) => b" ip6 daddr { ",
        SetKey::SourcePort(Some(17)) => b" udp sport { ",
        SetKey::SourcePort(Some(132)) => b" sctp sport { ",
        SetKey::SourcePort(_) => b" tcp sport { ",
        SetKey::DestinationPort(Some(17)) => b" udp dport { ",
        SetKey::DestinationPort(Some(132)) => b" sctp dport { ",
        SetKey::DestinationPort(_) => b" tcp dport { ",
        SetKey::IcmpType(Family::V4) => b" icmp type { ",
        SetKey::IcmpType(Family::V6) => b" icmpv6 type { ",
        SetKey::IcmpCode(Family::V4) => b" icmp code { ",
        SetKey::IcmpCode(Family::V6) => b" icmpv6 code { ",
    }
}

/// A set, behind the words of what is matched, each element in the form. One without elements is not written.
#[derive(Drop)]
pub struct ElementSet<L, F> {
    pub key: SetKey,
    pub elements: L,
    pub form: F,
}

impl<L: Listed, F: WordForm<L::Item>> Words for ElementSet<L, F> {
    ghost words = { λ s.
        set_words (key_front s.key) (key_word s.key) (map (F.item_text s.form) (L.items s.elements)) };

    #[tactic(auto, unfolding(crate::specs::Texts::set_words))]
    fn put_spaced<O: Out>(&self, out: &mut O) -> Result<(), PutFault> {
        let mut rest = self.elements.copy();
        match rest.next() {
            None => Ok(()),
            Some(first) => {
                let set = FullSet {
                    key: self.key,
                    first,
                    rest,
                    form: &self.form,
                };
                set.put_into(out)
            }
        }
    }
}

// The text of a set with a first element and others.
#[derive(Drop)]
struct FullSet<'a, T, L, F> {
    key: SetKey,
    first: T,
    rest: L,
    form: &'a F,
}

impl<'a, L: Listed, F: WordForm<L::Item>> Piece for FullSet<'a, L::Item, L, F> {
    ghost text = { λ s. spaced (set_words (key_front s.key) (key_word s.key)
        (map (F.item_text s.form.now) (s.first ∷ L.items s.rest))) };

    #[inline]
    fn put_into<O: Out>(&self, out: &mut O) -> Result<(), PutFault> {
        let form = self.form;
        let first = OneItem {
            item: &self.first,
            form,
        };
        let comma: &[u8] = b", ";
        let end: &[u8] = b" }";
        let rest = ItemsBehind {
            separator: comma,
            items: self.rest.copy(),
            form,
        };
        (opening(self.key), (first, (rest, end))).put_into(out)
    }
}
