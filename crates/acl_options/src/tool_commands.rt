ghost use Rattle.std.specs.Prelude.{◌≡◌, ◌++◌, ◌∷◌, [], codes, ℕ, IfNone, IfOk, IfSome, map, option_and_then};
ghost use Rattle.std.specs.Option.{option_map};
ghost use Rattle.std.specs.String.{string_bytes};
ghost use Rattle.clap.specs.Words.{app_of, found_of, rows_of};
ghost use Rattle.acl_options.specs.CodeViews.{rows_found, tool_view};
ghost use Rattle.acl_options.specs.ComputableCommands.{count_in, rows_in};
ghost use Rattle.acl_options.specs.ComputableTools.{
  date_for,
  dead_in,
  family_in,
  family_named,
  first_in,
  request_named,
  speedway_in,
  standard_in,
  tool_request_of,
};
ghost use Rattle.acl_options.specs.ToolCommands.{AsksForTool, ToolRequest, dead, speedway, standard};

use crate::commands::{find_matches, inputs_command, with_required};
use crate::inputs::{Inputs, inputs_in, value_of};
use acl_host::Day;
use acl_packet::{Family, read_u8};
use acl_text::Memory;
use clap::{ArgMatches, Command};
use std::alloc::{AllocError, Global};

/// What the words of acltool ask for.
#[derive(Clone, Copy)]
pub enum ToolCommand<'a> {
    /// The text for iptables-restore, of the iptables targets of this family.
    Speedway(Inputs<'a>, Family),
    /// A packet that each term decides on each target, or that there is none.
    Dead(Inputs<'a>),
    /// The standard lists of the Cisco targets, from the list of this number on, 1 to 99.
    Standard(Inputs<'a>, u8),
}

impl ToolCommand<'_> {
    /// The day on which the policy is looked at, where the words name one.
    pub fn date(&self) -> Option<Day>
        ensures { result ≡ date_for (tool_view self.now) }
    {
        match self {
            ToolCommand::Speedway(inputs, _) => inputs.date,
            ToolCommand::Dead(inputs) => inputs.date,
            ToolCommand::Standard(inputs, _) => inputs.date,
        }
    }
}

fn family_named(text: &str) -> Option<Family>
    ensures { result ≡ family_named text.now }
{
    match text {
        "inet" => Some(Family::V4),
        "inet6" => Some(Family::V6),
        _ => None,
    }
}

fn family_in(matches: &ArgMatches<'_>) -> Option<Family>
    ensures { result ≡ family_in (rows_of (found_of matches.now)) }
{
    family_named(value_of(matches, "family")?)
}

fn speedway_command<'a>(alloc: Global) -> Result<Command<'a>, AllocError>
    ensures { IfOk result (λ c. app_of c ≡ speedway) }
{
    with_required(alloc, inputs_command(alloc, "speedway"), "family")
}

#[tactic(auto, unfolding(crate::specs::ComputableTools::speedway_in))]
fn speedway_in<'a>(matches: &ArgMatches<'a>) -> Option<ToolCommand<'a>>
    ensures { option_map tool_view result ≡ speedway_in (rows_of (found_of matches.now)) }
{
    Some(ToolCommand::Speedway(inputs_in(matches)?, family_in(matches)?))
}

fn speedway_among<'a>(found: &Option<ArgMatches<'a>>) -> Option<ToolCommand<'a>>
    ensures { option_map tool_view result ≡ option_and_then speedway_in (rows_found found.now) }
{
    speedway_in(found.as_ref()?)
}

fn speedway_for(alloc: Global, words: &[String]) -> Result<Option<ToolCommand<'_>>, Memory>
    ensures { IfOk result (λ request. option_map tool_view request
        ≡ option_and_then speedway_in (rows_in speedway (map string_bytes words.now))) }
{
    let found = find_matches(speedway_command(alloc), words)?;
    Ok(speedway_among(&found))
}

fn dead_command<'a>(alloc: Global) -> Result<Command<'a>, AllocError>
    ensures { IfOk result (λ c. app_of c ≡ dead) }
{
    inputs_command(alloc, "dead")
}

#[tactic(auto, unfolding(crate::specs::ComputableTools::dead_in))]
fn dead_in<'a>(matches: &ArgMatches<'a>) -> Option<ToolCommand<'a>>
    ensures { option_map tool_view result ≡ dead_in (rows_of (found_of matches.now)) }
{
    Some(ToolCommand::Dead(inputs_in(matches)?))
}

fn dead_among<'a>(found: &Option<ArgMatches<'a>>) -> Option<ToolCommand<'a>>
    ensures { option_map tool_view result ≡ option_and_then dead_in (rows_found found.now) }
{
    dead_in(found.as_ref()?)
}

fn dead_for(alloc: Global, words: &[String]) -> Result<Option<ToolCommand<'_>>, Memory>
    ensures { IfOk result (λ request. option_map tool_view request
        ≡ option_and_then dead_in (rows_in dead (map string_bytes words.now))) }
{
    let found = find_matches(dead_command(alloc), words)?;
    Ok(dead_among(&found))
}

fn first_number_named(text: &str) -> Option<u8>
    ensures { result ≡ count_in 99 text.now }
{
    let number = read_u8(text.as_bytes(), 99)?;
    if number == 0 { None } else { Some(number) }
}

fn first_in(matches: &ArgMatches<'_>) -> Option<u8>
    ensures { result ≡ first_in (rows_of (found_of matches.now)) }
{
    first_number_named(value_of(matches, "first_number")?)
}

fn standard_command<'a>(alloc: Global) -> Result<Command<'a>, AllocError>
    ensures { IfOk result (λ c. app_of c ≡ standard) }
{
    with_required(alloc, inputs_command(alloc, "standard"), "first_number")
}

#[tactic(auto, unfolding(crate::specs::ComputableTools::standard_in))]
fn standard_in<'a>(matches: &ArgMatches<'a>) -> Option<ToolCommand<'a>>
    ensures { option_map tool_view result ≡ standard_in (rows_of (found_of matches.now)) }
{
    Some(ToolCommand::Standard(inputs_in(matches)?, first_in(matches)?))
}

fn standard_among<'a>(found: &Option<ArgMatches<'a>>) -> Option<ToolCommand<'a>>
    ensures { option_map tool_view result ≡ option_and_then standard_in (rows_found found.now) }
{
    standard_in(found.as_ref()?)
}

fn standard_for(alloc: Global, words: &[String]) -> Result<Option<ToolCommand<'_>>, Memory>
    ensures { IfOk result (λ request. option_map tool_view request
        ≡ option_and_then standard_in (rows_in standard (map string_bytes words.now))) }
{
    let found = find_matches(standard_command(alloc), words)?;
    Ok(standard_among(&found))
}

// What the words behind a command's name ask for.
fn request_named<'a>(
    alloc: Global,
    name: &str,
    words: &'a [String],
) -> Result<Option<ToolCommand<'a>>, Memory>
    ensures { IfOk result (λ request. option_map tool_view request
        ≡ request_named name.now (map string_bytes words.now)) }
{
    match name {
        "speedway" => speedway_for(alloc, words),
        "dead" => dead_for(alloc, words),
        "standard" => standard_for(alloc, words),
        _ => Ok(None),
    }
}

#[tactic(auto, unfolding(crate::specs::ComputableTools::tool_request_of))]
fn request_for(alloc: Global, words: &[String]) -> Result<Option<ToolCommand<'_>>, Memory>
    ensures { IfOk result (λ request.
        option_map tool_view request ≡ tool_request_of (map string_bytes words.now)) }
{
    match words {
        [] => Ok(None),
        [name, behind @ ..] => request_named(alloc, name.as_str(), behind),
    }
}

/// What the words behind the program's name ask of acltool, or none where they are no command line:
/// `speedway --policy_file P --definitions_directory D --family F [--date YYYY-MM-DD]`,
/// `dead --policy_file P --definitions_directory D [--date YYYY-MM-DD]`, or
/// `standard --policy_file P --definitions_directory D --first_number N [--date YYYY-MM-DD]`.
///
/// The words behind the first are read as clap reads those of a command with these options, and clap's messages are not
/// told. `P` and `D` are not empty, `P` does not end in `/`, `F` is `inet` or `inet6`, `N` is a number from 1 to 99 in
/// decimal digits, and the date is a day of the years 0001 to 9999. Memory may be wanted for the parse.
pub fn read_tool_command(alloc: Global, words: &[String]) -> Result<Option<ToolCommand<'_>>, Memory>
    ensures some { IfOk result (λ request. IfSome request (λ r.
        AsksForTool (map string_bytes words.now) (tool_view r))) }
    ensures none { IfOk result (λ request. IfNone request ((r : ToolRequest)
        → AsksForTool (map string_bytes words.now) r → ⊥)) }
    ensures exact { IfOk result (λ request.
        option_map tool_view request ≡ tool_request_of (map string_bytes words.now)) }
{
    request_for(alloc, words)
}
