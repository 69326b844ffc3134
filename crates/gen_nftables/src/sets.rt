ghost use Rattle.std.specs.Prelude.{◌≤◌, map};
ghost use Rattle.acl_text.specs.AddressTexts.{prefix_text};
ghost use Rattle.nft_lang.specs.SetKeys.{key_front, key_word};
ghost use Rattle.nft_lang.specs.Texts.{ports_word, set_words};
ghost use Rattle.acl_platform.specs.Elements.{address_elements, port_elements};

use acl_platform::{ListedPrefixes, range_elements};
use acl_rows::{Piece, PortRange, WordForm, Words};
use acl_sets::{Prefixes, Range, RangeSet};
use acl_text::{Out, PutFault};
use nft_lang::{ElementSet, PrefixWord, SetKey};

/// The addresses of an end of a rule, unless they are all.
#[derive(Drop)]
pub(crate) struct AddressSet<'a> {
    pub(crate) key: SetKey,
    pub(crate) prefixes: &'a Prefixes,
}

impl<'a> Words for AddressSet<'a> {
    ghost words = { λ a.
        set_words (key_front a.key) (key_word a.key)
        (map prefix_text (address_elements a.prefixes.now)) };

    fn put_spaced<O: Out>(&self, out: &mut O) -> Result<(), PutFault> {
        let set = ElementSet {
            key: self.key,
            elements: ListedPrefixes::written(self.prefixes),
            form: PrefixWord,
        };
        set.put_spaced(out)
    }
}

/// The ports of an end of a rule, unless they are all.
#[derive(Drop)]
pub(crate) struct PortSet<'a> {
    pub(crate) key: SetKey,
    pub(crate) set: &'a RangeSet,
    pub(crate) ghost small: { set.now.top ≤ 65535 },
}

impl<'a> Words for PortSet<'a> {
    ghost words = { λ p.
        set_words (key_front p.key) (key_word p.key) (map ports_word (port_elements p.set.now)) };

    fn put_spaced<O: Out>(&self, out: &mut O) -> Result<(), PutFault> {
        let set = ElementSet {
            key: self.key,
            elements: range_elements(self.set),
            form: RangeWord,
        };
        set.put_spaced(out)
    }
}

// Ports, from the first to the last.
#[derive(Clone, Copy)]
struct RangeWord;

impl WordForm<Range> for RangeWord {
    ghost item_text = { λ f r. ports_word (r.low, r.high) };

    fn put_item_into<O: Out>(&self, range: &Range, out: &mut O) -> Result<(), PutFault> {
        let ports = PortRange {
            low: range.low,
            high: range.high,
            separator: b'-',
        };
        ports.put_into(out)
    }
}
