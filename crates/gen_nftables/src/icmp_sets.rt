ghost use Rattle.std.specs.Prelude.{◌+◌, ◌-◌, ◌≤◌, ◌++◌, [], codes, decimal, map};
ghost use Rattle.std.specs.List.{All, range_with_len};
ghost use Rattle.acl_sets.specs.Ranges.{IsRange};
ghost use Rattle.acl_platform.specs.Choices.{numbers_of};
ghost use Rattle.nft_lang.specs.Texts.{icmp_set_words, set_words, with_commas};
ghost use Rattle.gen_nftables.specs.RowSteps.{other_numbers};
ghost use Rattle.acl_platform.specs.Elements.{number_elements};

use acl_packet::Family;
use acl_platform::{NumberForm, put_numbers, put_numbers_from, range_elements};
use acl_rows::{Number, Piece, Words};
use acl_sets::{Range, RangeSet};
use acl_text::{Out, PutFault};
use nft_lang::icmp_word;

/// The types or the codes of ICMP of a rule, unless they are all.
#[derive(Drop)]
pub(crate) struct IcmpSet<'a> {
    pub(crate) family: Family,
    pub(crate) key: &'a [u8],
    pub(crate) set: &'a RangeSet,
    pub(crate) ghost small: { set.now.top ≤ 255 },
}

impl<'a> Words for IcmpSet<'a> {
    ghost words = { λ i. icmp_set_words i.family i.key.now (number_elements i.set.now) };

    fn put_spaced<O: Out>(&self, out: &mut O) -> Result<(), PutFault> {
        let set = NumberSet {
            front: icmp_word(self.family),
            key: self.key,
            ranges: range_elements(self.set),
        };
        set.put_spaced(out)
    }
}

// The numbers of ranges, behind the words of what is matched. A set without numbers is not written.
#[derive(Drop)]
struct NumberSet<'a> {
    front: &'a [u8],
    key: &'a [u8],
    ranges: &'a [Range],
    ghost small: { All (λ r. IsRange 255 r) ranges.now },
}

impl<'a> Words for NumberSet<'a> {
    ghost words = { λ s.
        set_words s.front.now s.key.now (map (λ number. decimal number) (numbers_of s.ranges.now)) };

    fn put_spaced<O: Out>(&self, out: &mut O) -> Result<(), PutFault> {
        match self.ranges {
            [] => Ok(()),
            [_, ..] => {
                let ranges = self.ranges;
                let key: &[&[u8]] = &[self.front, self.key, b"{"];
                let end: &[&[u8]] = &[b"}"];
                (key, (NumberList { ranges }, end)).put_spaced(out)
            }
        }
    }
}

// The numbers of ranges, with a comma behind each but the last.
#[derive(Drop)]
struct NumberList<'a> {
    ranges: &'a [Range],
    ghost small: { All (λ r. IsRange 255 r) ranges.now },
}

impl<'a> Words for NumberList<'a> {
    ghost words = { λ n. with_commas (map (λ number. decimal number) (numbers_of n.ranges.now)) };

    fn put_spaced<O: Out>(&self, out: &mut O) -> Result<(), PutFault> {
        match self.ranges {
            [] => Ok(()),
            [first, others @ ..] => {
                let space: &[u8] = b" ";
                let number = first.low;
                let behind = NumbersBetween {
                    first: first.low as u16 + 1,
                    end: first.high as u16 + 1,
                };
                let others = NumbersIn { ranges: others };
                (space, (Number { number }, (behind, others))).put_into(out)
            }
        }
    }
}

// The numbers from the first one on, below the end, each behind a comma and a space.
#[derive(Drop)]
struct NumbersBetween {
    first: u16,
    end: u16,
    ghost ends: { first ≤ end },
    ghost small: { end ≤ 256 },
}

impl Piece for NumbersBetween {
    ghost text = { λ n. other_numbers (range_with_len n.first (n.end - n.first)) };

    fn put_into<O: Out>(&self, out: &mut O) -> Result<(), PutFault> {
        put_numbers_from(self.first, self.end, &BehindComma, out)
    }
}

// The numbers of ranges, each behind a comma and a space.
#[derive(Drop)]
struct NumbersIn<'a> {
    ranges: &'a [Range],
    ghost small: { All (λ r. IsRange 255 r) ranges.now },
}

impl<'a> Piece for NumbersIn<'a> {
    ghost text = { λ n. other_numbers (numbers_of n.ranges.now) };

    fn put_into<O: Out>(&self, out: &mut O) -> Result<(), PutFault> {
        put_numbers(self.ranges, &BehindComma, out)
    }
}

struct BehindComma;

impl NumberForm for BehindComma {
    ghost number_text = { λ f number. codes ", " ++ decimal number };

    fn put_number<O: Out>(&self, number: u8, out: &mut O) -> Result<(), PutFault> {
        let comma: &[u8] = b", ";
        let number = u128::from(number);
        (comma, Number { number }).put_into(out)
    }
}
