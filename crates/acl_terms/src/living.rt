ghost use Rattle.std.specs.Prelude.{◌≡◌, ◌↔◌, IsTrue, map};
ghost use Rattle.std.specs.List.{list_any};
ghost use Rattle.std.specs.Str.{bytes_eq};
ghost use Rattle.acl_terms.specs.Living.{allows, has_platform, names_platform, platforms_of, some_platforms};
ghost use Rattle.acl_terms.specs.Resolved.{IsTermLive, is_term_live, is_unexpired};

use crate::terms::{Platforms, Term};
use acl_host::Day;
use acl_policy::WordList;
use acl_target::{Kind, kind_text};

// ---- platforms by their words

const NO_PLATFORMS: Platforms = Platforms {
    cisco: false,
    juniper: false,
    iptables: false,
    nftables: false,
};

fn names_platform(kind: Kind, words: &WordList) -> bool
    ensures { result ≡ names_platform kind words.now }
{
    let name = kind_text(kind);
    for word in words.iter() {
        if word.text() == name {
            return true;
        }
    }
    false
}

fn named_platforms(words: &WordList) -> Platforms
    ensures { result ≡ platforms_of words.now }
{
    Platforms {
        cisco: names_platform(Kind::Cisco, words),
        juniper: names_platform(Kind::Juniper, words),
        iptables: names_platform(Kind::Iptables, words),
        nftables: names_platform(Kind::Nftables, words),
    }
}

/// The platforms that the words name, or none where no word is written.
pub(crate) fn some_platforms(words: &WordList) -> Option<Platforms>
    ensures { result ≡ some_platforms words.now }
{
    match words.first() {
        None => None,
        Some(_) => Some(named_platforms(words)),
    }
}

/// The platforms that the words name. Most terms have no such words.
pub(crate) fn platforms_of(words: &WordList) -> Platforms
    ensures { result ≡ platforms_of words.now }
{
    some_platforms(words).unwrap_or(NO_PLATFORMS)
}

// ---- life

fn has_platform(platforms: Platforms, kind: Kind) -> bool
    ensures { result ≡ has_platform platforms kind }
{
    match kind {
        Kind::Cisco => platforms.cisco,
        Kind::Juniper => platforms.juniper,
        Kind::Iptables => platforms.iptables,
        Kind::Nftables => platforms.nftables,
    }
}

fn allows(only: Option<Platforms>, kind: Kind) -> bool
    ensures { result ≡ allows only kind }
{
    match only {
        None => true,
        Some(platforms) => has_platform(platforms, kind),
    }
}

fn is_unexpired(expires: Option<Day>, today: Day) -> bool
    ensures { result ≡ is_unexpired expires today }
{
    match expires {
        None => true,
        Some(day) => today.number < day.number,
    }
}

#[tactic(auto, unfolding(crate::specs::Resolved::is_term_live))]
fn is_term_live(term: &Term, kind: Kind, today: Day) -> bool
    ensures { result ≡ is_term_live term.now kind today }
{
    is_unexpired(term.expires, today) && allows(term.only, kind) && !has_platform(term.never, kind)
}

/// Whether the term is live: it is for the platform, and `today` is before the day on which it expires.
pub fn is_live(term: &Term, kind: Kind, today: Day) -> bool
    ensures exact { IsTrue result ↔ IsTermLive term.now kind today }
    ensures computed { result ≡ is_term_live term.now kind today }
{
    is_term_live(term, kind, today)
}
