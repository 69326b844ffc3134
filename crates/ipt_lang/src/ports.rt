ghost use Rattle.std.specs.Prelude.{◌≡◌, ◌&&◌, List, ℕ, map};
ghost use Rattle.std.specs.List.{join_with_byte};
ghost use Rattle.ipt_lang.specs.Texts.{is_single, key_words, port_list_words, ports_words, range_word};

use acl_rows::{ItemsBehind, OneItem, OneWord, Piece, PortRange, WordForm, Words, put_words};
use acl_text::{Out, PutFault};

/// The words of a rule's source and destination ports, each range in a form. The plain form is written
/// where neither list has two ranges or more, else that of multiport.
#[derive(Clone, Copy)]
pub struct PortLists<'a, T, F> {
    pub sports: &'a [T],
    pub dports: &'a [T],
    pub form: F,
}

impl<'a, T: Copy, F: WordForm<T>> Words for PortLists<'a, T, F> {
    ghost words = { λ l. ports_words (map (F.item_text l.form) l.sports.now)
        (map (F.item_text l.form) l.dports.now) };

    #[tactic(auto, using(crate::proofs::PortWords::single_map), unfolding(crate::specs::Texts::ports_words))]
    #[inline]
    fn put_spaced<O: Out>(&self, out: &mut O) -> Result<(), PutFault> {
        if self.sports.is_empty() && self.dports.is_empty() {
            return Ok(());
        }
        let plain = is_single(self.sports) && is_single(self.dports);
        let sources = PortList {
            plain,
            key: b"--sport",
            keys: b"--sports",
            ranges: self.sports,
            form: &self.form,
        };
        let destinations = PortList {
            plain,
            key: b"--dport",
            keys: b"--dports",
            ranges: self.dports,
            form: &self.form,
        };
        (sources, destinations).put_spaced(out)
    }
}

#[inline]
fn is_single<T>(items: &[T]) -> bool
    ensures { result ≡ is_single items.now }
{
    match items {
        [] | [_] => true,
        [_, _, ..] => false,
    }
}

#[derive(Drop)]
struct PortList<'a, T, F> {
    plain: bool,
    key: &'a [u8],
    keys: &'a [u8],
    ranges: &'a [T],
    form: &'a F,
}

impl<'a, T: Copy, F: WordForm<T>> Words for PortList<'a, T, F> {
    ghost words = { λ l. port_list_words l.plain l.key.now l.keys.now
        (map (F.item_text l.form.now) l.ranges.now) };

    #[tactic(auto, unfolding(crate::specs::Texts::port_list_words))]
    #[inline]
    fn put_spaced<O: Out>(&self, out: &mut O) -> Result<(), PutFault> {
        match self.ranges {
            [] => Ok(()),
            [_, ..] => {
                let list = OneWord {
                    piece: Listing {
                        items: self.ranges,
                        form: self.form,
                    },
                };
                let key = KeyWords {
                    plain: self.plain,
                    key: self.key,
                    keys: self.keys,
                };
                (key, list).put_spaced(out)
            }
        }
    }
}

#[derive(Drop)]
struct KeyWords<'a> {
    plain: bool,
    key: &'a [u8],
    keys: &'a [u8],
}

impl<'a> Words for KeyWords<'a> {
    ghost words = { λ k. key_words k.plain k.key.now k.keys.now };

    #[tactic(auto, unfolding(crate::specs::Texts::key_words))]
    #[inline]
    fn put_spaced<O: Out>(&self, out: &mut O) -> Result<(), PutFault> {
        if self.plain {
            OneWord { piece: self.key }.put_spaced(out)
        } else {
            put_words(&[b"-m", b"multiport", self.keys], out)
        }
    }
}

// Items in one word, with commas between.
#[derive(Drop)]
struct Listing<'a, T, F> {
    items: &'a [T],
    form: &'a F,
}

impl<'a, T: Copy, F: WordForm<T>> Piece for Listing<'a, T, F> {
    ghost text = { λ l. join_with_byte 44 (map (F.item_text l.form.now) l.items.now) };

    #[inline]
    fn put_into<O: Out>(&self, out: &mut O) -> Result<(), PutFault> {
        let form = self.form;
        match self.items {
            [] => Ok(()),
            [first, others @ ..] => {
                let comma: &[u8] = b",";
                let rest = ItemsBehind {
                    separator: comma,
                    items: others,
                    form,
                };
                (OneItem { item: first, form }, rest).put_into(out)
            }
        }
    }
}
