ghost use Rattle.std.specs.Prelude.{◌≡◌, ◌≢◌, [], IfOk, IfSome};
ghost use Rattle.std.specs.Option.{option_or};
ghost use Rattle.acl_packet.specs.declared.addresses.Family.TheVariants.{V4, V6};
ghost use Rattle.acl_packet.specs.Addresses.{top_address};
ghost use Rattle.acl_text.specs.Refusals.{Judges, first_in};
ghost use Rattle.acl_terms.specs.KnownAddresses.{AreKnownFor};
ghost use Rattle.acl_terms.specs.Matching.{IsAddress, IsNamedAddress, IsProtocol, protocols_of};
ghost use Rattle.acl_terms.specs.Sets.{IsSetOf};
ghost use Rattle.acl_terms.specs.SetSteps.{IsPortSet};
ghost use Rattle.acl_terms.specs.Slips.{network_slip, port_words, services_slip};

use crate::addresses::{Addresses, Lookups, addresses_of_words, all_addresses, end_of};
use crate::known_protocols::KnownProtocols;
use crate::ports::{TermPorts, ports_of_term};
use crate::protocols::admitted_protocols;
use acl_naming::Checked;
use acl_policy::{RawTerm, WordList};
use acl_sets::RangeSet;
use acl_text::{Memory, Refusal, TextKey};
use indexmap::IndexMap;
use std::alloc::Global;
use std::marker::Model;

/// The addresses of lists of words that terms of a policy had so far, over the definitions of its names.
///
/// Many terms name the same networks. Where the words are the same, in the same order and with the same excluded ones, their
/// addresses are gathered once, and terms share the sets. So it is with the sets of their protocols. A contract sees the
/// definitions.
#[derive(Drop)]
pub struct KnownAddresses<'a> {
    base: &'a Checked,
    lists: IndexMap<(TextKey<'a>, TextKey<'a>), Addresses>,
    lookups: Lookups,
    protocols: KnownProtocols,
    // where the next service is looked for first
    service: usize,
}

impl<'a> Model for KnownAddresses<'a> {
    ghost use Rattle.acl_naming.specs.Definitions.{Naming};
    ghost use Rattle.acl_terms.specs.KnownAddresses.{AreKnown};

    ghost Value = { Naming };

    ghost view = { λ k. k.base.now };

    ghost invariant = { λ k. AreKnown k.base.now k.lists.entries };
}

impl<'a> KnownAddresses<'a> {
    /// No addresses are known.
    pub fn new(alloc: Global, base: &'a Checked) -> KnownAddresses<'a>
        ensures { result ≡ base.now }
    {
        KnownAddresses {
            base,
            lists: IndexMap::new(alloc),
            lookups: Lookups::new(alloc),
            protocols: KnownProtocols::new(alloc),
            service: 0,
        }
    }

    // The addresses that are known of words of these texts.
    fn find(&self, named: &'a [u8], excluded: &'a [u8]) -> Result<Option<Addresses>, Memory>
        ensures { IfOk result (λ o. IfSome o (AreKnownFor self.now named.now excluded.now)) }
    {
        if self.lists.is_empty() {
            return Ok(None);
        }
        let sought = (TextKey { text: named }, TextKey { text: excluded });
        match self.lists.get(&sought) {
            Some(known) => Ok(Some(known.share()?)),
            None => Ok(None),
        }
    }

    // The addresses of words of these texts are known from now on, where they take memory: others are as soon made anew.
    fn keep(
        &mut self,
        named: &'a [u8],
        excluded: &'a [u8],
        addresses: &Addresses,
    ) -> Result<(), Memory>
        requires { AreKnownFor self.old named.now excluded.now addresses.now }
        ensures { self.new ≡ self.old }
    {
        if addresses.are_many() {
            let shared = addresses.share()?;
            let key = (TextKey { text: named }, TextKey { text: excluded });
            self.lists.insert(key, shared)?;
        }
        Ok(())
    }

    // The addresses of the words. They are known from now on.
    fn named_addresses(&mut self, alloc: Global, words: &'a WordList) -> Result<Addresses, Refusal>
        requires { words.now ≢ [] }
        ensures judged { Judges result (first_in (network_slip self.old.networks) words.now) }
        ensures v4 { IfOk result (λ a. IsSetOf (IsNamedAddress self.old V4 words.now)
            (top_address V4) a.v4) }
        ensures v6 { IfOk result (λ a. IsSetOf (IsNamedAddress self.old V6 words.now)
            (top_address V6) a.v6) }
        ensures same { self.new ≡ self.old }
    {
        if let Some(known) = self.find(words.text(), &[])? {
            return Ok(known);
        }
        let addresses = addresses_of_words(alloc, self.base, words, &mut self.lookups)?;
        self.keep(words.text(), &[], &addresses)?;
        Ok(addresses)
    }

    /// The same, or all where no word is written, as for most ends: nothing is looked for then.
    #[inline(always)]
    pub(crate) fn addresses_of(
        &mut self,
        alloc: Global,
        words: &'a WordList,
    ) -> Result<Addresses, Refusal>
        ensures judged { Judges result (first_in (network_slip self.old.networks) words.now) }
        ensures v4 { IfOk result (λ a. IsSetOf (IsNamedAddress self.old V4 words.now)
            (top_address V4) a.v4) }
        ensures v6 { IfOk result (λ a. IsSetOf (IsNamedAddress self.old V6 words.now)
            (top_address V6) a.v6) }
        ensures same { self.new ≡ self.old }
    {
        if words.is_empty() {
            return Ok(all_addresses(alloc)?);
        }
        self.named_addresses(alloc, words)
    }

    // The addresses of the words, less those of the excluded ones. They are known from now on.
    fn cut_addresses(
        &mut self,
        alloc: Global,
        words: &'a WordList,
        excludes: &'a WordList,
    ) -> Result<Addresses, Refusal>
        ensures judged { Judges result (option_or
            (first_in (network_slip self.old.networks) words.now)
            (first_in (network_slip self.old.networks) excludes.now)) }
        ensures v4 { IfOk result (λ a. IsSetOf (IsAddress self.old V4 words.now excludes.now)
            (top_address V4) a.v4) }
        ensures v6 { IfOk result (λ a. IsSetOf (IsAddress self.old V6 words.now excludes.now)
            (top_address V6) a.v6) }
        ensures same { self.new ≡ self.old }
    {
        if let Some(known) = self.find(words.text(), excludes.text())? {
            return Ok(known);
        }
        let named = self.addresses_of(alloc, words)?;
        let addresses = end_of(alloc, self.base, named, excludes, &mut self.lookups)?;
        self.keep(words.text(), excludes.text(), &addresses)?;
        Ok(addresses)
    }

    /// The addresses of an end: those of the words, less those of the excluded ones. They are known from now on.
    #[inline(always)]
    pub(crate) fn end_of(
        &mut self,
        alloc: Global,
        words: &'a WordList,
        excludes: &'a WordList,
    ) -> Result<Addresses, Refusal>
        ensures judged { Judges result (option_or
            (first_in (network_slip self.old.networks) words.now)
            (first_in (network_slip self.old.networks) excludes.now)) }
        ensures v4 { IfOk result (λ a. IsSetOf (IsAddress self.old V4 words.now excludes.now)
            (top_address V4) a.v4) }
        ensures v6 { IfOk result (λ a. IsSetOf (IsAddress self.old V6 words.now excludes.now)
            (top_address V6) a.v6) }
        ensures same { self.new ≡ self.old }
    {
        if excludes.is_empty() {
            return self.addresses_of(alloc, words);
        }
        self.cut_addresses(alloc, words, excludes)
    }

    /// The set of the protocols of a term, of which these are the numbers. It is known from now on.
    pub(crate) fn protocols_of(
        &mut self,
        alloc: Global,
        words: &WordList,
        protos: &[u8],
    ) -> Result<RangeSet, Memory>
        requires { protos.now ≡ protocols_of words.now }
        ensures set { IfOk result (λ s. IsSetOf (IsProtocol words.now) 255 s) }
        ensures same { self.new ≡ self.old }
    {
        admitted_protocols(alloc, words, protos, &mut self.protocols)
    }

    /// The ports of a term with its protocols, or the first slip at names of ports. Names are looked for behind the last one
    /// first.
    pub(crate) fn ports_of(
        &mut self,
        alloc: Global,
        protos: &[u8],
        raw: &RawTerm,
    ) -> Result<TermPorts, Refusal>
        requires { port_words raw.now ≢ [] → protos.now ≢ [] }
        ensures judged { Judges result (services_slip self.old.services protos.now raw.now) }
        ensures ports { IfOk result (λ p.
            IsPortSet self.old protos.now raw.now p.sports p.dports p.ports) }
        ensures same { self.new ≡ self.old }
    {
        ports_of_term(alloc, self.base, protos, raw, &mut self.service)
    }
}
