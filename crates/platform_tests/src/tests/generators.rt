ghost use Rattle.std.specs.Prelude.{flat_map, map};
ghost use Rattle.std.specs.List.{All, IsDistinct};
ghost use Rattle.std.specs.Str.{bytes_eq};
ghost use Rattle.acl_platform.specs.Combinations.{IsSized};
ghost use Rattle.acl_platform.specs.Limits.{filter_limit};
ghost use Rattle.acl_platform.specs.Platforms.{IsAccepted};

use crate::tests::samples::unreachable;
use acl_platform::{Filter, Platform, Rule, RuleCount, write_all};
use acl_rows::{read_document, sections};
use acl_text::{Memory, Whole};
use gen_iptables::Iptables;
use gen_junos::Junos;
use gen_nftables::Nftables;
use std::alloc::Global;

// How many sections the text has, where it is one of the platform's language.
fn sections_of<P: Platform>(alloc: Global, text: &[u8]) -> Result<Option<usize>, Memory> {
    match read_document::<P::Language>(alloc, text)? {
        Some(doc) => Ok(Some(sections(&doc))),
        None => Ok(None),
    }
}

// Whether the text is what becomes of filters that the platform takes, also where each has no rules: it is read back as
// a section for each.
pub(crate) fn are_written<P: Platform>(
    alloc: Global,
    platform: &P,
    filters: &[Filter],
    text: &str,
) -> Result<bool, Memory>
    requires accepted { All
        (IsAccepted (P.handles platform.now) (λ f. filter_limit P.limit (P.count f) f)) filters.now }
    requires differ { IsDistinct bytes_eq
        (flat_map P.Language.names (map (P.section platform.now) filters.now)) }
{
    let mut out = Whole::new(alloc);
    if write_all(alloc, platform, filters, &mut out).is_err() {
        return Err(Memory);
    }
    let sections = sections_of::<P>(alloc, out.as_slice())?;
    Ok(out.as_slice() == text.as_bytes() && sections == Some(filters.len()))
}

// The rule, its protocol where that is an element, its type and two codes; in iptables the jump and a rule for each code.
fn counts_each_code(rule: &Rule) -> bool
    requires { IsSized rule.now }
{
    Junos.count_rule(rule) == 5 && Nftables.count_rule(rule) == 4 && Iptables.count_rule(rule) == 3
}

fn codes_of_unreachable_count(alloc: Global) -> Result<bool, Memory> {
    Ok(counts_each_code(&unreachable(alloc)?))
}

#[test]
fn each_code_counts(rt: HostRuntime) {
    assert!(rt; codes_of_unreachable_count(rt.alloc()) == Ok(true));
}
