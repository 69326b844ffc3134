ghost use Rattle.std.specs.Prelude.{◌≡◌, true, ◌++◌, OnOk, map};
ghost use Rattle.acl_policy.specs.Terms.{no_word, empty_term, list_at, with_list};
ghost use Rattle.acl_policy.specs.Values.{ArePlain, word_of};

use crate::keywords::Keyword;
use crate::rare_lists::RareLists;
use crate::values::push_all;
use acl_host::Day;
use acl_text::{Bytes, Items, Memory, Place};
use acl_words::{Token, Word, WordBytes, WordList};
use std::alloc::Global;
use std::marker::Model;

/// The word where none stands.
pub(crate) fn no_word(alloc: Global) -> Word
    ensures { result ≡ no_word }
{
    Word {
        place: Place { file: 0, line: 0 },
        text: WordBytes::new(alloc),
    }
}

/// A term as it is written: each list has the words of its keyword, in the order of the text.
pub struct RawTerm {
    name: Word,
    comments: Bytes,
    action: Word,
    sources: WordList,
    destinations: WordList,
    protocols: WordList,
    destination_ports: WordList,
    /// The lists of the other keywords.
    rare: RareLists,
    expires: Option<Day>,
    logging: bool,
}

impl Model for RawTerm {
    ghost use Rattle.acl_policy.specs.RawTerms as spec;

    ghost Value = { spec.RawTerm };

    ghost use Rattle.acl_policy.specs.RareLists.{parts_in, AreSound};

    ghost view = { λ t. record {
      name = t.name;
      comments = t.comments;
      action = t.action;
      sources = t.sources;
      source_excludes = (parts_in t.rare).source_excludes;
      destinations = t.destinations;
      destination_excludes = (parts_in t.rare).destination_excludes;
      addresses = (parts_in t.rare).addresses;
      protocols = t.protocols;
      source_ports = (parts_in t.rare).source_ports;
      destination_ports = t.destination_ports;
      ports = (parts_in t.rare).ports;
      icmp_types = (parts_in t.rare).icmp_types;
      icmp_codes = (parts_in t.rare).icmp_codes;
      options = (parts_in t.rare).options;
      logging = t.logging;
      expires = t.expires;
      platforms = (parts_in t.rare).platforms;
      not_platforms = (parts_in t.rare).not_platforms;
    } };

    ghost invariant = { λ t. AreSound t.rare };
}

// Where a term is let go, that is one step, whatever it holds.
impl Drop for RawTerm {
    fn drop(self) {
        let RawTerm {
            name,
            comments,
            action,
            sources,
            destinations,
            protocols,
            destination_ports,
            rare,
            expires: _,
            logging: _,
        } = self;
        drop(name);
        drop(comments);
        drop(action);
        drop(sources);
        drop(destinations);
        drop(protocols);
        drop(destination_ports);
        drop(rare);
    }
}

impl RawTerm {
    /// A term of the name, before its first keyword.
    pub(crate) fn new(alloc: Global, name: Word) -> RawTerm
        ensures { result ≡ empty_term name }
    {
        RawTerm {
            name,
            comments: Bytes::new(alloc),
            action: no_word(alloc),
            sources: WordList::new(alloc),
            destinations: WordList::new(alloc),
            protocols: WordList::new(alloc),
            destination_ports: WordList::new(alloc),
            rare: RareLists::new(alloc),
            expires: None,
            logging: false,
        }
    }

    /// Adds the bytes to the comment.
    pub(crate) fn push_comment(&mut self, text: &[u8]) -> Result<(), Memory>
        ensures { OnOk result
            (self.new ≡ record self.old { comments = self.old.comments ++ text.now }) }
    {
        self.comments.push_all(text)
    }

    pub(crate) fn set_action(&mut self, action: Word)
        ensures { self.new ≡ record self.old { action = action } }
    {
        self.action = action;
    }

    pub(crate) fn set_logging(&mut self)
        ensures { self.new ≡ record self.old { logging = true } }
    {
        self.logging = true;
    }

    pub(crate) fn set_expires(&mut self, expires: Option<Day>)
        ensures { self.new ≡ record self.old { expires = expires } }
    {
        self.expires = expires;
    }

    /// Adds the values to the list of the keyword, if it has one.
    pub(crate) fn push_all(
        &mut self,
        alloc: Global,
        keyword: Keyword,
        values: &[Token<'_>],
    ) -> Result<(), Memory>
        requires { ArePlain values.now }
        ensures { OnOk result (self.new
            ≡ with_list self.old keyword (list_at self.old keyword ++ map word_of values.now)) }
    {
        match keyword {
            Keyword::SourceAddress => push_all(&mut self.sources, values),
            Keyword::DestinationAddress => push_all(&mut self.destinations, values),
            Keyword::Protocol => push_all(&mut self.protocols, values),
            Keyword::DestinationPort => push_all(&mut self.destination_ports, values),
            _ => self.rare.push_all(alloc, keyword, values),
        }
    }

    pub fn name(&self) -> &Word
        ensures { result.now ≡ self.now.name }
    {
        &self.name
    }

    /// The strings of `comment::` with a space between any two.
    pub fn comments(&self) -> &Bytes
        ensures { result.now ≡ self.now.comments }
    {
        &self.comments
    }

    pub fn action(&self) -> &Word
        ensures { result.now ≡ self.now.action }
    {
        &self.action
    }

    pub fn sources(&self) -> &WordList
        ensures { result.now ≡ self.now.sources }
    {
        &self.sources
    }

    pub fn source_excludes(&self) -> &WordList
        ensures { result.now ≡ self.now.source_excludes }
    {
        match &self.rare {
            RareLists::Nothing(none) => none,
            RareLists::Parts(parts) => &parts.source_excludes,
        }
    }

    pub fn destinations(&self) -> &WordList
        ensures { result.now ≡ self.now.destinations }
    {
        &self.destinations
    }

    pub fn destination_excludes(&self) -> &WordList
        ensures { result.now ≡ self.now.destination_excludes }
    {
        match &self.rare {
            RareLists::Nothing(none) => none,
            RareLists::Parts(parts) => &parts.destination_excludes,
        }
    }

    /// The words of `address::`: of either side.
    pub fn addresses(&self) -> &WordList
        ensures { result.now ≡ self.now.addresses }
    {
        match &self.rare {
            RareLists::Nothing(none) => none,
            RareLists::Parts(parts) => &parts.addresses,
        }
    }

    pub fn protocols(&self) -> &WordList
        ensures { result.now ≡ self.now.protocols }
    {
        &self.protocols
    }

    pub fn source_ports(&self) -> &WordList
        ensures { result.now ≡ self.now.source_ports }
    {
        match &self.rare {
            RareLists::Nothing(none) => none,
            RareLists::Parts(parts) => &parts.source_ports,
        }
    }

    pub fn destination_ports(&self) -> &WordList
        ensures { result.now ≡ self.now.destination_ports }
    {
        &self.destination_ports
    }

    /// The words of `port::`: of either side.
    pub fn ports(&self) -> &WordList
        ensures { result.now ≡ self.now.ports }
    {
        match &self.rare {
            RareLists::Nothing(none) => none,
            RareLists::Parts(parts) => &parts.ports,
        }
    }

    pub fn icmp_types(&self) -> &WordList
        ensures { result.now ≡ self.now.icmp_types }
    {
        match &self.rare {
            RareLists::Nothing(none) => none,
            RareLists::Parts(parts) => &parts.icmp_types,
        }
    }

    pub fn icmp_codes(&self) -> &WordList
        ensures { result.now ≡ self.now.icmp_codes }
    {
        match &self.rare {
            RareLists::Nothing(none) => none,
            RareLists::Parts(parts) => &parts.icmp_codes,
        }
    }

    pub fn options(&self) -> &WordList
        ensures { result.now ≡ self.now.options }
    {
        match &self.rare {
            RareLists::Nothing(none) => none,
            RareLists::Parts(parts) => &parts.options,
        }
    }

    pub fn logging(&self) -> bool
        ensures { result ≡ self.now.logging }
    {
        self.logging
    }

    pub fn expires(&self) -> Option<Day>
        ensures { result ≡ self.now.expires }
    {
        self.expires
    }

    /// The platforms that the term is for, where it names some.
    pub fn platforms(&self) -> &WordList
        ensures { result.now ≡ self.now.platforms }
    {
        match &self.rare {
            RareLists::Nothing(none) => none,
            RareLists::Parts(parts) => &parts.platforms,
        }
    }

    /// The platforms that the term is not for.
    pub fn not_platforms(&self) -> &WordList
        ensures { result.now ≡ self.now.not_platforms }
    {
        match &self.rare {
            RareLists::Nothing(none) => none,
            RareLists::Parts(parts) => &parts.not_platforms,
        }
    }
}

/// A list of terms.
pub type RawTerms = Items<RawTerm>;
