ghost use Rattle.std.specs.Prelude.{◌≡◌, ◌≤◌, IfNone, IfOk, IfSome, map, option_and_then};
ghost use Rattle.std.specs.Option.{option_map};
ghost use Rattle.std.specs.String.{string_bytes};
ghost use Rattle.clap.specs.Words.{app_of, found_of, rows_of};
ghost use Rattle.acl_options.specs.CheckCommands.{
  AsksForCheck,
  CheckRequest,
  policy_command,
  text_command,
};
ghost use Rattle.acl_options.specs.CodeViews.{check_view, rows_found, section_view};
ghost use Rattle.acl_options.specs.ComputableChecks.{
  check_request_of,
  file_section_in,
  kind_in,
  kind_named,
  packet_named,
  path_in,
  policy_question_in,
  question_named,
  section_in,
  text_question_in,
};
ghost use Rattle.acl_options.specs.ComputableCommands.{rows_in};

use crate::commands::{bare_command, find_matches, inputs_command, with_required};
use crate::inputs::{Inputs, folder_named, inputs_in, value_of};
use crate::packet_reading::read_packet;
use crate::workload_words::count_in;
use acl_packet::Packet;
use acl_target::Kind;
use acl_text::Memory;
use clap::{ArgMatches, Command};
use std::alloc::{AllocError, Global};

/// A section of a file.
#[derive(Clone, Copy)]
pub struct FileSection<'a> {
    /// The file's path. It is not empty.
    pub path: &'a str,
    /// The platform in whose language the file is read.
    pub kind: Kind,
    /// The section's number, 1 to 1024.
    pub number: u32,
}

/// What the words of aclcheck ask for.
#[derive(Clone, Copy)]
pub enum CheckCommand<'a> {
    /// What each target of the policy does to the packet.
    Policy(Inputs<'a>, Packet),
    /// What a section of a file does to it.
    Text(FileSection<'a>, Packet),
}

fn packet_named(matches: &ArgMatches<'_>) -> Option<Packet>
    ensures { result ≡ packet_named (rows_of (found_of matches.now)) }
{
    read_packet(value_of(matches, "packet")?.as_bytes())
}

fn kind_named(text: &str) -> Option<Kind>
    ensures { result ≡ kind_named text.now }
{
    match text {
        "cisco" => Some(Kind::Cisco),
        "juniper" => Some(Kind::Juniper),
        "iptables" => Some(Kind::Iptables),
        "nftables" => Some(Kind::Nftables),
        _ => None,
    }
}

fn kind_in(matches: &ArgMatches<'_>) -> Option<Kind>
    ensures { result ≡ kind_in (rows_of (found_of matches.now)) }
{
    kind_named(value_of(matches, "platform")?)
}

fn path_in<'a>(matches: &ArgMatches<'a>) -> Option<&'a str>
    ensures { option_map (λ s. s.now) result ≡ path_in (rows_of (found_of matches.now)) }
{
    folder_named(value_of(matches, "text")?)
}

fn section_in(matches: &ArgMatches<'_>) -> Option<u32>
    ensures { result ≡ section_in (rows_of (found_of matches.now)) }
{
    count_in(value_of(matches, "section")?)
}

// The command that asks a policy.
fn policy_command<'a>(alloc: Global) -> Result<Command<'a>, AllocError>
    ensures { IfOk result (λ c. app_of c ≡ policy_command) }
{
    with_required(alloc, inputs_command(alloc, "policy"), "packet")
}

// The command that asks a section of a file.
fn text_command<'a>(alloc: Global) -> Result<Command<'a>, AllocError>
    ensures { IfOk result (λ c. app_of c ≡ text_command) }
{
    let command = with_required(alloc, Ok(bare_command(alloc, "text")), "text");
    let command = with_required(alloc, command, "platform");
    let command = with_required(alloc, command, "section");
    with_required(alloc, command, "packet")
}

#[tactic(auto, unfolding(crate::specs::ComputableChecks::policy_question_in))]
fn policy_question_in<'a>(matches: &ArgMatches<'a>) -> Option<CheckCommand<'a>>
    ensures { option_map check_view result ≡ policy_question_in (rows_of (found_of matches.now)) }
{
    Some(CheckCommand::Policy(inputs_in(matches)?, packet_named(matches)?))
}

#[tactic(auto, unfolding(crate::specs::ComputableChecks::file_section_in))]
fn file_section_in<'a>(matches: &ArgMatches<'a>) -> Option<FileSection<'a>>
    ensures { option_map section_view result ≡ file_section_in (rows_of (found_of matches.now)) }
{
    Some(FileSection {
        path: path_in(matches)?,
        kind: kind_in(matches)?,
        number: section_in(matches)?,
    })
}

#[tactic(auto, unfolding(crate::specs::ComputableChecks::text_question_in))]
fn text_question_in<'a>(matches: &ArgMatches<'a>) -> Option<CheckCommand<'a>>
    ensures { option_map check_view result ≡ text_question_in (rows_of (found_of matches.now)) }
{
    Some(CheckCommand::Text(file_section_in(matches)?, packet_named(matches)?))
}

// What the options that clap found ask a policy, where it took the words.
fn policy_question_among<'a>(found: &Option<ArgMatches<'a>>) -> Option<CheckCommand<'a>>
    ensures { option_map check_view result
        ≡ option_and_then policy_question_in (rows_found found.now) }
{
    policy_question_in(found.as_ref()?)
}

fn policy_question(alloc: Global, words: &[String]) -> Result<Option<CheckCommand<'_>>, Memory>
    ensures { IfOk result (λ request. option_map check_view request
        ≡ option_and_then policy_question_in (rows_in policy_command (map string_bytes words.now))) }
{
    let found = find_matches(policy_command(alloc), words)?;
    Ok(policy_question_among(&found))
}

// What the options that clap found ask a section of a file, where it took the words.
fn text_question_among<'a>(found: &Option<ArgMatches<'a>>) -> Option<CheckCommand<'a>>
    ensures { option_map check_view result
        ≡ option_and_then text_question_in (rows_found found.now) }
{
    text_question_in(found.as_ref()?)
}

fn text_question(alloc: Global, words: &[String]) -> Result<Option<CheckCommand<'_>>, Memory>
    ensures { IfOk result (λ request. option_map check_view request
        ≡ option_and_then text_question_in (rows_in text_command (map string_bytes words.now))) }
{
    let found = find_matches(text_command(alloc), words)?;
    Ok(text_question_among(&found))
}

// What the words behind a command's name ask for.
fn question_named<'a>(
    alloc: Global,
    name: &str,
    words: &'a [String],
) -> Result<Option<CheckCommand<'a>>, Memory>
    ensures { IfOk result (λ request. option_map check_view request
        ≡ question_named name.now (map string_bytes words.now)) }
{
    match name {
        "policy" => policy_question(alloc, words),
        "text" => text_question(alloc, words),
        _ => Ok(None),
    }
}

#[tactic(auto, unfolding(crate::specs::ComputableChecks::check_request_of))]
fn question_for(alloc: Global, words: &[String]) -> Result<Option<CheckCommand<'_>>, Memory>
    ensures { IfOk result (λ request.
        option_map check_view request ≡ check_request_of (map string_bytes words.now)) }
{
    match words {
        [] => Ok(None),
        [name, behind @ ..] => question_named(alloc, name.as_str(), behind),
    }
}

/// What the words behind the program's name ask of aclcheck, or none where they are no command line:
/// `policy --policy_file P --definitions_directory D --packet X [--date YYYY-MM-DD]`, or
/// `text --text Q --platform K --section N --packet X`.
///
/// The words behind the first are read as clap reads those of a command with these options, and clap's messages are not
/// told. `P`, `D` and `Q` are not empty, `P` does not end in `/`, the date is a day of the years 0001 to 9999, `K` is
/// `cisco`, `juniper`, `iptables` or `nftables`, `N` is a number from 1 to 1024 in decimal digits, and `X` is a packet's
/// text (`read_packet`). Memory may be wanted for the parse.
pub fn read_check_command(
    alloc: Global,
    words: &[String],
) -> Result<Option<CheckCommand<'_>>, Memory>
    ensures some { IfOk result (λ request. IfSome request (λ r.
        AsksForCheck (map string_bytes words.now) (check_view r))) }
    ensures none { IfOk result (λ request. IfNone request ((r : CheckRequest)
        → AsksForCheck (map string_bytes words.now) r → ⊥)) }
    ensures exact { IfOk result (λ request.
        option_map check_view request ≡ check_request_of (map string_bytes words.now)) }
{
    question_for(alloc, words)
}
