ghost use Rattle.std.specs.Prelude.{◌≡◌};
ghost use Rattle.std.specs.Option.{option_map};
ghost use Rattle.clap.specs.Words.{first_of, found_of, rows_of};
ghost use Rattle.acl_host.specs.NamedDays.{day_named};
ghost use Rattle.acl_options.specs.CodeViews.{inputs_view};
ghost use Rattle.acl_options.specs.ComputableCommands.{
  date_in,
  definitions_in,
  file_named,
  folder_named,
  inputs_in,
  policy_in,
};

use acl_host::{Day, read_day};
use clap::ArgMatches;

/// What a command is to read.
#[derive(Clone, Copy)]
pub struct Inputs<'a> {
    /// The path of the policy. It is not empty, and does not end in `/`.
    pub policy: &'a str,
    /// The folder of the naming files. It is not empty.
    pub definitions: &'a str,
    /// The day on which the policy is looked at, where the words name one.
    pub date: Option<Day>,
}

// The value of an option.
pub fn value_of<'a>(matches: &ArgMatches<'a>, name: &str) -> Option<&'a str>
    ensures { option_map (λ s. s.now) result ≡ first_of name.now (rows_of (found_of matches.now)) }
{
    matches.get_str(name)
}

pub fn folder_named(text: &str) -> Option<&str>
    ensures { option_map (λ s. s.now) result ≡ folder_named text.now }
{
    if text.is_empty() { None } else { Some(text) }
}

fn file_named(text: &str) -> Option<&str>
    ensures { option_map (λ s. s.now) result ≡ file_named text.now }
{
    if text.as_bytes().ends_with(b"/") {
        None
    } else {
        folder_named(text)
    }
}

fn day_named(text: &str) -> Option<Day>
    ensures { result ≡ day_named text.now }
{
    read_day(text.as_bytes())
}

pub fn policy_in<'a>(matches: &ArgMatches<'a>) -> Option<&'a str>
    ensures { option_map (λ s. s.now) result ≡ policy_in (rows_of (found_of matches.now)) }
{
    file_named(value_of(matches, "policy_file")?)
}

pub fn definitions_in<'a>(matches: &ArgMatches<'a>) -> Option<&'a str>
    ensures { option_map (λ s. s.now) result ≡ definitions_in (rows_of (found_of matches.now)) }
{
    folder_named(value_of(matches, "definitions_directory")?)
}

pub fn date_in(matches: &ArgMatches<'_>) -> Option<Option<Day>>
    ensures { result ≡ date_in (rows_of (found_of matches.now)) }
{
    match value_of(matches, "date") {
        Some(text) => Some(Some(day_named(text)?)),
        None => Some(None),
    }
}

// What the options say is to be read.
#[tactic(auto, unfolding(crate::specs::ComputableCommands::inputs_in))]
pub fn inputs_in<'a>(matches: &ArgMatches<'a>) -> Option<Inputs<'a>>
    ensures { option_map inputs_view result ≡ inputs_in (rows_of (found_of matches.now)) }
{
    Some(Inputs {
        policy: policy_in(matches)?,
        definitions: definitions_in(matches)?,
        date: date_in(matches)?,
    })
}
