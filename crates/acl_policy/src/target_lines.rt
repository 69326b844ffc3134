ghost use Rattle.std.specs.Prelude.{◌≡◌, ◌∷◌, Ok};
ghost use Rattle.acl_text.specs.Answers.{Gives, slip_told};
ghost use Rattle.acl_policy.specs.TargetSteps.{formed_target};
ghost use Rattle.acl_policy.specs.Targets.{
  chain_word,
  chain_words,
  hook_word,
  hook_words,
  name_word,
  last_family,
  device_ending,
  device_line,
  device_words,
  default_ending,
  iptables_line,
  hooked_line,
  nftables_line,
  target_line,
};

use crate::choices::{family_word, is_word, read_choices};
use crate::clauses::Clause;
use crate::values::is_plain;
use crate::word_slips::{refusal_at, refusal_for};
use acl_packet::{Families, Hook};
use acl_target::{Ending, Kind, Target};
use acl_text::{Bytes, Code, Place, Refusal, is_filter_name};
use acl_words::Token;
use std::alloc::Global;

/// A target, and the place of the word that names it.
#[derive(Drop)]
pub(crate) struct NamedTarget {
    pub(crate) target: Target,
    pub(crate) place: Place,
}

/// What a target line asks for, beside the name of its target.
#[derive(Clone, Copy)]
struct TargetForm {
    kind: Kind,
    families: Families,
    hook: Hook,
    stateful: bool,
    ending: Ending,
    priority: i32,
    verbose: bool,
}

fn chain_word(word: &Token<'_>) -> Option<Hook>
    ensures { result ≡ chain_word word.now }
{
    if is_word(word, b"INPUT") {
        Some(Hook::Input)
    } else if is_word(word, b"OUTPUT") {
        Some(Hook::Output)
    } else if is_word(word, b"FORWARD") {
        Some(Hook::Forward)
    } else {
        None
    }
}

fn hook_word(word: &Token<'_>) -> Option<Hook>
    ensures { result ≡ hook_word word.now }
{
    if is_word(word, b"input") {
        Some(Hook::Input)
    } else if is_word(word, b"output") {
        Some(Hook::Output)
    } else if is_word(word, b"forward") {
        Some(Hook::Forward)
    } else {
        None
    }
}

fn name_word(word: &Token<'_>) -> bool
    ensures { result ≡ name_word word.now }
{
    is_plain(word.form()) && is_filter_name(word.text())
}

fn make_target(
    alloc: Global,
    keyword: &Token<'_>,
    name: &Token<'_>,
    form: &TargetForm,
) -> Result<NamedTarget, Refusal>
    ensures { Gives slip_told result (Ok (formed_target keyword.now name.now form.now)) }
{
    let target = Target {
        place: keyword.place(),
        kind: form.kind,
        name: Bytes::from_slice(alloc, name.text())?,
        families: form.families,
        hook: form.hook,
        stateful: form.stateful,
        ending: form.ending,
        priority: form.priority,
        verbose: form.verbose,
        number: 0,
    };
    Ok(NamedTarget {
        target,
        place: name.place(),
    })
}

fn read_last_family(alloc: Global, kind: Kind, words: &[Token<'_>]) -> Result<Families, Refusal>
    ensures { Gives slip_told result (last_family kind words.now) }
{
    match words {
        [] => Ok(Families::Inet),
        [word, behind @ ..] => match family_word(kind, word) {
            None => Err(refusal_for(alloc, Code::TargetLine, word)),
            Some(families) => match behind {
                [] => Ok(families),
                [next, ..] => Err(refusal_for(alloc, Code::TargetLine, next)),
            },
        },
    }
}

fn device_ending(kind: Kind) -> Ending
    ensures { result ≡ device_ending kind }
{
    match kind {
        Kind::Cisco => Ending::Neighbours,
        _ => Ending::Deny,
    }
}

fn read_named_device(
    alloc: Global,
    kind: Kind,
    keyword: &Token<'_>,
    name: &Token<'_>,
    words: &[Token<'_>],
) -> Result<NamedTarget, Refusal>
    ensures { Gives slip_told result (device_words kind keyword.now name.now words.now) }
{
    let form = TargetForm {
        kind,
        families: read_last_family(alloc, kind, words)?,
        hook: Hook::Input,
        stateful: false,
        ending: device_ending(kind),
        priority: 0,
        verbose: true,
    };
    make_target(alloc, keyword, name, &form)
}

fn read_device(
    alloc: Global,
    kind: Kind,
    keyword: &Token<'_>,
    platform: &Token<'_>,
    words: &[Token<'_>],
) -> Result<NamedTarget, Refusal>
    ensures { Gives slip_told result (device_line kind keyword.now platform.now words.now) }
{
    match words {
        [] => Err(refusal_at(alloc, Code::TargetLine, platform)),
        [name, behind @ ..] => {
            if name_word(name) {
                read_named_device(alloc, kind, keyword, name, behind)
            } else {
                Err(refusal_for(alloc, Code::TargetLine, name))
            }
        }
    }
}

fn default_ending(without: Ending, accept: Option<bool>) -> Ending
    ensures { result ≡ default_ending without accept }
{
    match accept {
        None => without,
        Some(true) => Ending::Accept,
        Some(false) => Ending::Deny,
    }
}

fn read_chain(
    alloc: Global,
    keyword: &Token<'_>,
    name: &Token<'_>,
    hook: Hook,
    words: &[Token<'_>],
) -> Result<NamedTarget, Refusal>
    ensures { Gives slip_told result (chain_words keyword.now name.now hook words.now) }
{
    let choices = read_choices(alloc, Kind::Iptables, words)?;
    let form = TargetForm {
        kind: Kind::Iptables,
        families: choices.families.unwrap_or(Families::Inet),
        hook,
        stateful: !choices.marked,
        ending: default_ending(Ending::Left, choices.accept),
        priority: 0,
        verbose: true,
    };
    make_target(alloc, keyword, name, &form)
}

fn read_iptables(
    alloc: Global,
    keyword: &Token<'_>,
    platform: &Token<'_>,
    words: &[Token<'_>],
) -> Result<NamedTarget, Refusal>
    ensures { Gives slip_told result (iptables_line keyword.now platform.now words.now) }
{
    match words {
        [] => Err(refusal_at(alloc, Code::TargetLine, platform)),
        [name, behind @ ..] => match chain_word(name) {
            None => Err(refusal_for(alloc, Code::TargetLine, name)),
            Some(hook) => read_chain(alloc, keyword, name, hook, behind),
        },
    }
}

fn read_hook(
    alloc: Global,
    keyword: &Token<'_>,
    name: &Token<'_>,
    families: Families,
    hook: Hook,
    words: &[Token<'_>],
) -> Result<NamedTarget, Refusal>
    ensures { Gives slip_told result (hook_words keyword.now name.now families hook words.now) }
{
    let choices = read_choices(alloc, Kind::Nftables, words)?;
    let form = TargetForm {
        kind: Kind::Nftables,
        families,
        hook,
        stateful: true,
        ending: default_ending(Ending::Deny, choices.accept),
        priority: choices.priority.unwrap_or(0),
        verbose: !choices.marked,
    };
    make_target(alloc, keyword, name, &form)
}

fn read_hooked(
    alloc: Global,
    keyword: &Token<'_>,
    platform: &Token<'_>,
    families: Families,
    words: &[Token<'_>],
) -> Result<NamedTarget, Refusal>
    ensures { Gives slip_told result (hooked_line keyword.now platform.now families words.now) }
{
    match words {
        [] => Err(refusal_at(alloc, Code::TargetLine, platform)),
        [name, behind @ ..] => match hook_word(name) {
            None => Err(refusal_for(alloc, Code::TargetLine, name)),
            Some(hook) => read_hook(alloc, keyword, name, families, hook, behind),
        },
    }
}

fn read_nftables(
    alloc: Global,
    keyword: &Token<'_>,
    platform: &Token<'_>,
    words: &[Token<'_>],
) -> Result<NamedTarget, Refusal>
    ensures { Gives slip_told result (nftables_line keyword.now platform.now words.now) }
{
    match words {
        [] => Err(refusal_at(alloc, Code::TargetLine, platform)),
        [word, behind @ ..] => match family_word(Kind::Nftables, word) {
            None => Err(refusal_for(alloc, Code::TargetLine, word)),
            Some(families) => read_hooked(alloc, keyword, platform, families, behind),
        },
    }
}

// The target of a platform's word and the words behind it.
#[tactic(auto, unfolding(crate::specs::Targets::target_line))]
fn read_platform(
    alloc: Global,
    keyword: &Token<'_>,
    platform: &Token<'_>,
    words: &[Token<'_>],
) -> Result<NamedTarget, Refusal>
    ensures { Gives slip_told result (target_line keyword.now (platform.now ∷ words.now)) }
{
    if is_word(platform, b"cisco") {
        read_device(alloc, Kind::Cisco, keyword, platform, words)
    } else if is_word(platform, b"juniper") {
        read_device(alloc, Kind::Juniper, keyword, platform, words)
    } else if is_word(platform, b"iptables") {
        read_iptables(alloc, keyword, platform, words)
    } else if is_word(platform, b"nftables") {
        read_nftables(alloc, keyword, platform, words)
    } else {
        Err(refusal_for(alloc, Code::TargetLine, platform))
    }
}

/// The target of the words behind `target::`, without its number.
#[tactic(auto, unfolding(crate::specs::Targets::target_line))]
pub(crate) fn read_target_line(alloc: Global, clause: &Clause<'_>) -> Result<NamedTarget, Refusal>
    ensures { Gives slip_told result (target_line clause.now.keyword.now clause.now.values.now) }
{
    match clause.values {
        [] => Err(refusal_at(alloc, Code::Missing, clause.keyword)),
        [platform, words @ ..] => read_platform(alloc, clause.keyword, platform, words),
    }
}
