ghost use Rattle.std.specs.Prelude.{◌≡◌, IfSome, map, option_map, ℤ};
ghost use Rattle.acl_text.specs.Answers.{Gives, slip_told};
ghost use Rattle.acl_policy.specs.Targets.{
  is_word,
  no_choices,
  with_policy,
  with_mark,
  with_families,
  with_priority,
  priority_word,
  later_family,
  single_family,
  family_word,
  iptables_choice,
  nftables_choice,
  choice,
  choices_from,
};

use crate::values::{is_plain, is_text};
use crate::word_slips::refusal_for;
use acl_packet::Families;
use acl_target::Kind;
use acl_text::{Code, Refusal, read_signed};
use acl_words::Token;
use std::alloc::Global;

/// What the words of a target line in any order have chosen so far.
#[derive(Clone, Copy, PartialEq, Eq)]
pub(crate) struct TargetChoices {
    /// Whether the policy word is `ACCEPT`, where there is one.
    pub(crate) accept: Option<bool>,
    /// Whether `nostate` or `noverbose` stands there.
    pub(crate) marked: bool,
    pub(crate) families: Option<Families>,
    pub(crate) priority: Option<i32>,
}

/// Whether the word is no string and has that text.
pub(crate) fn is_word(word: &Token<'_>, text: &[u8]) -> bool
    ensures { result ≡ is_word word.now text.now }
{
    is_plain(word.form()) && is_text(word, text)
}

fn choose_policy(choices: TargetChoices, accept: bool) -> Option<TargetChoices>
    ensures { result ≡ with_policy choices accept }
{
    match choices.accept {
        Some(_) => None,
        None => Some(TargetChoices {
            accept: Some(accept),
            ..choices
        }),
    }
}

fn mark(choices: TargetChoices) -> Option<TargetChoices>
    ensures { result ≡ with_mark choices }
{
    if choices.marked {
        None
    } else {
        Some(TargetChoices {
            marked: true,
            ..choices
        })
    }
}

fn choose_families(choices: TargetChoices, families: Families) -> Option<TargetChoices>
    ensures { result ≡ with_families choices families }
{
    match choices.families {
        Some(_) => None,
        None => Some(TargetChoices {
            families: Some(families),
            ..choices
        }),
    }
}

fn choose_priority(choices: TargetChoices, priority: i32) -> Option<TargetChoices>
    ensures { result ≡ with_priority choices priority }
{
    match choices.priority {
        Some(_) => None,
        None => Some(TargetChoices {
            priority: Some(priority),
            ..choices
        }),
    }
}

/// The families of a word of a target line of the platform.
pub(crate) fn family_word(kind: Kind, word: &Token<'_>) -> Option<Families>
    ensures { result ≡ family_word kind word.now }
{
    match kind {
        Kind::Cisco => {
            if is_word(word, b"extended") {
                Some(Families::Inet)
            } else {
                later_family(word)
            }
        }
        Kind::Nftables => {
            if is_word(word, b"inet") {
                Some(Families::Inet)
            } else {
                later_family(word)
            }
        }
        _ => single_family(word),
    }
}

fn later_family(word: &Token<'_>) -> Option<Families>
    ensures { result ≡ later_family word.now }
{
    if is_word(word, b"inet6") {
        Some(Families::Inet6)
    } else if is_word(word, b"mixed") {
        Some(Families::Mixed)
    } else {
        None
    }
}

fn single_family(word: &Token<'_>) -> Option<Families>
    ensures { result ≡ single_family word.now }
{
    if is_word(word, b"inet") {
        Some(Families::Inet)
    } else if is_word(word, b"inet6") {
        Some(Families::Inet6)
    } else {
        None
    }
}

#[tactic(auto, unfolding(crate::specs::Targets::iptables_choice))]
fn choose_iptables(choices: TargetChoices, word: &Token<'_>) -> Option<TargetChoices>
    ensures { result ≡ iptables_choice choices word.now }
{
    if is_word(word, b"ACCEPT") {
        choose_policy(choices, true)
    } else if is_word(word, b"DROP") {
        choose_policy(choices, false)
    } else if is_word(word, b"nostate") {
        mark(choices)
    } else {
        let families = single_family(word)?;
        choose_families(choices, families)
    }
}

/// The priority of the word: 0 to 32767, or `-` and 1 to 32768.
fn priority_word(word: &Token<'_>) -> Option<i32>
    ensures { result ≡ priority_word word.now }
{
    if is_plain(word.form()) {
        read_signed(word.text(), 32_768, 32_767)
    } else {
        None
    }
}

#[tactic(auto, unfolding(crate::specs::Targets::nftables_choice))]
fn choose_nftables(choices: TargetChoices, word: &Token<'_>) -> Option<TargetChoices>
    ensures { result ≡ nftables_choice choices word.now }
{
    if is_word(word, b"ACCEPT") {
        choose_policy(choices, true)
    } else if is_word(word, b"DROP") {
        choose_policy(choices, false)
    } else if is_word(word, b"noverbose") {
        mark(choices)
    } else {
        let priority = priority_word(word)?;
        choose_priority(choices, priority)
    }
}

fn choose(kind: Kind, choices: TargetChoices, word: &Token<'_>) -> Option<TargetChoices>
    ensures { result ≡ choice kind choices word.now }
{
    match kind {
        Kind::Iptables => choose_iptables(choices, word),
        _ => choose_nftables(choices, word),
    }
}

fn no_choices() -> TargetChoices
    ensures { result ≡ no_choices }
{
    TargetChoices {
        accept: None,
        marked: false,
        families: None,
        priority: None,
    }
}

/// What the words of a target line choose that stand in any order, each at most once.
pub(crate) fn read_choices(
    alloc: Global,
    kind: Kind,
    words: &[Token<'_>],
) -> Result<TargetChoices, Refusal>
    ensures { Gives slip_told result (choices_from kind no_choices words.now) }
{
    let mut choices = no_choices();
    for word in words {
        match choose(kind, choices, word) {
            None => return Err(refusal_for(alloc, Code::TargetLine, word)),
            Some(more) => choices = more,
        }
    }
    Ok(choices)
}
