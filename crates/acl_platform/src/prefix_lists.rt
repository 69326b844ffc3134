ghost use Rattle.std.specs.Prelude.{◌≡◌, [], ◌∷◌, IfSome, min, length};
ghost use Rattle.acl_text.specs.Output.{COUNT_END};
ghost use Rattle.acl_platform.specs.Elements.{address_elements};

use acl_packet::Prefix;
use acl_rows::Listed;
use acl_sets::{Prefixes, PrefixesLeft};
use std::marker::Model;

/// The prefixes of a least list, as they are written. A contract sees those that are left.
#[derive(Drop)]
pub struct ListedPrefixes<'a> {
    left: PrefixesLeft<'a>,
}

impl<'a> Model for ListedPrefixes<'a> {
    ghost use Rattle.std.specs.Prelude.{List};
    ghost use Rattle.acl_packet.specs.declared.addresses.Prefix.{Prefix};

    ghost Value = { List Prefix };

    ghost view = { λ l. l.left };
}

impl<'a> ListedPrefixes<'a> {
    /// All prefixes of the list.
    pub fn all(prefixes: &'a Prefixes) -> ListedPrefixes<'a>
        ensures { result ≡ prefixes.now }
    {
        ListedPrefixes {
            left: prefixes.iter(),
        }
    }

    /// Those that are written where all addresses need not be: none where one of them is all addresses.
    pub fn written(prefixes: &'a Prefixes) -> ListedPrefixes<'a>
        ensures { result ≡ address_elements prefixes.now }
    {
        if prefixes.is_all() {
            ListedPrefixes {
                left: PrefixesLeft::none(),
            }
        } else {
            ListedPrefixes::all(prefixes)
        }
    }
}

impl<'a> Listed for ListedPrefixes<'a> {
    type Item = Prefix;

    ghost items = { λ l. l };

    #[inline]
    fn copy(&self) -> ListedPrefixes<'a> {
        ListedPrefixes {
            left: self.left.copy(),
        }
    }

    #[inline]
    fn next(&mut self) -> Option<Prefix> {
        self.left.next()
    }
}

/// The prefix of a list that has one.
pub(crate) fn one_prefix(prefixes: &Prefixes) -> Option<Prefix>
    ensures { IfSome result (λ prefix. prefixes.now ≡ prefix ∷ []) }
{
    let mut left = ListedPrefixes::all(prefixes);
    let prefix = left.next()?;
    match left.next() {
        Some(_) => None,
        None => Some(prefix),
    }
}

/// How many prefixes are written of the list; a number that does not fit stands at the greatest one that does.
pub fn count_written(prefixes: &Prefixes) -> u64
    ensures { result ≡ min (length (address_elements prefixes.now)) COUNT_END }
{
    if prefixes.is_all() {
        0
    } else {
        prefixes.count()
    }
}
