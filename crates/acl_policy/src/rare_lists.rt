ghost use Rattle.std.specs.Prelude.{◌≡◌, [], OnOk, map};
ghost use Rattle.acl_policy.specs.RareLists.{each_is, parts_in, AreSound, with_more};
ghost use Rattle.acl_policy.specs.Values.{ArePlain, word_of};

use crate::keywords::Keyword;
use crate::values::push_all;
use acl_text::Memory;
use acl_words::{Token, WordList};
use std::alloc::Global;

/// The words of the keywords that few terms have.
pub(crate) struct RareParts {
    pub(crate) source_excludes: WordList,
    pub(crate) destination_excludes: WordList,
    pub(crate) addresses: WordList,
    pub(crate) source_ports: WordList,
    pub(crate) ports: WordList,
    pub(crate) icmp_types: WordList,
    pub(crate) icmp_codes: WordList,
    pub(crate) options: WordList,
    pub(crate) platforms: WordList,
    pub(crate) not_platforms: WordList,
}

// Where the lists are let go, that is one step, whatever they hold.
impl Drop for RareParts {
    fn drop(self) {
        let RareParts {
            source_excludes,
            destination_excludes,
            addresses,
            source_ports,
            ports,
            icmp_types,
            icmp_codes,
            options,
            platforms,
            not_platforms,
        } = self;
        drop(source_excludes);
        drop(destination_excludes);
        drop(addresses);
        drop(source_ports);
        drop(ports);
        drop(icmp_types);
        drop(icmp_codes);
        drop(options);
        drop(platforms);
        drop(not_platforms);
    }
}

impl RareParts {
    /// No words.
    fn new(alloc: Global) -> RareParts
        ensures { result ≡ each_is [] }
    {
        RareParts {
            source_excludes: WordList::new(alloc),
            destination_excludes: WordList::new(alloc),
            addresses: WordList::new(alloc),
            source_ports: WordList::new(alloc),
            ports: WordList::new(alloc),
            icmp_types: WordList::new(alloc),
            icmp_codes: WordList::new(alloc),
            options: WordList::new(alloc),
            platforms: WordList::new(alloc),
            not_platforms: WordList::new(alloc),
        }
    }

    /// Adds the values to the list of the keyword, if it has one here.
    fn push_all(&mut self, keyword: Keyword, values: &[Token<'_>]) -> Result<(), Memory>
        requires { ArePlain values.now }
        ensures { OnOk result (self.new ≡ with_more self.old keyword (map word_of values.now)) }
    {
        match keyword {
            Keyword::SourceExclude => push_all(&mut self.source_excludes, values),
            Keyword::DestinationExclude => push_all(&mut self.destination_excludes, values),
            Keyword::Address => push_all(&mut self.addresses, values),
            Keyword::SourcePort => push_all(&mut self.source_ports, values),
            Keyword::Port => push_all(&mut self.ports, values),
            Keyword::IcmpType => push_all(&mut self.icmp_types, values),
            Keyword::IcmpCode => push_all(&mut self.icmp_codes, values),
            Keyword::Opt => push_all(&mut self.options, values),
            Keyword::Platform => push_all(&mut self.platforms, values),
            Keyword::PlatformExclude => push_all(&mut self.not_platforms, values),
            _ => Ok(()),
        }
    }
}

/// The words of these keywords in one term. Most terms have none, and take no memory for them.
#[derive(Drop)]
pub(crate) enum RareLists {
    /// There are no words: this empty list stands for each of the lists.
    Nothing(WordList),
    Parts(Box<RareParts>),
}

impl RareLists {
    /// No words.
    pub(crate) fn new(alloc: Global) -> RareLists
        ensures none { parts_in result ≡ each_is [] }
        ensures sound { AreSound result }
    {
        RareLists::Nothing(WordList::new(alloc))
    }

    /// Adds the values to the list of the keyword, if it has one here.
    pub(crate) fn push_all(
        &mut self,
        alloc: Global,
        keyword: Keyword,
        values: &[Token<'_>],
    ) -> Result<(), Memory>
        requires sound { AreSound self.old }
        requires plain { ArePlain values.now }
        ensures more { OnOk result
            (parts_in self.new ≡ with_more (parts_in self.old) keyword (map word_of values.now)) }
        ensures sound { AreSound self.new }
    {
        match self {
            RareLists::Nothing(_) => {
                let mut parts = Box::new(alloc, RareParts::new(alloc))?;
                parts.push_all(keyword, values)?;
                *self = RareLists::Parts(parts);
                Ok(())
            }
            RareLists::Parts(parts) => parts.push_all(keyword, values),
        }
    }
}
