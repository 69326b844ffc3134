ghost use Rattle.std.specs.Prelude.{◌≡◌, ◌↔◌, IfOk, IsTrue, [], false, map, true};
ghost use Rattle.std.specs.String.{string_bytes};
ghost use Rattle.clap.specs.Words.{App, app_of, is_simple_and_free, kind_of, rule_of, with_rule};
ghost use Rattle.acl_options.specs.CodeViews.{rows_found};
ghost use Rattle.acl_options.specs.Commands.{
  command_with,
  defaulted_option,
  flag_option,
  input_options,
  required_option,
  value_option,
};
ghost use Rattle.acl_options.specs.ComputableCommands.{rows_in};

use acl_text::Memory;
use clap::error::ErrorKind;
use clap::{Arg, ArgAction, ArgMatches, Command, Error};
use std::alloc::{AllocError, Global};

// The option `--NAME`, with one value.
pub fn value_option(alloc: Global, name: &str) -> Arg<'_>
    ensures rule { rule_of result ≡ value_option name.now }
    ensures local { result.global ≡ false }
{
    Arg::new(alloc, name).long(name).action(ArgAction::Set)
}

pub fn required_option(alloc: Global, name: &str) -> Arg<'_>
    ensures rule { rule_of result ≡ required_option name.now }
    ensures local { result.global ≡ false }
{
    value_option(alloc, name).required(true)
}

pub fn defaulted_option<'a>(alloc: Global, name: &'a str, value: &'a str) -> Arg<'a>
    ensures rule { rule_of result ≡ defaulted_option name.now value.now }
    ensures local { result.global ≡ false }
{
    value_option(alloc, name).default_value(value)
}

// The option `--NAME`, without a value.
pub fn flag_option(alloc: Global, name: &str) -> Arg<'_>
    ensures rule { rule_of result ≡ flag_option name.now }
    ensures local { result.global ≡ false }
{
    Arg::new(alloc, name).long(name).action(ArgAction::SetTrue)
}

// The command without options.
pub fn bare_command<'a>(alloc: Global, name: &'a str) -> Command<'a>
    ensures { app_of result ≡ command_with name.now [] }
{
    Command::new(alloc, name)
        .no_binary_name(true)
        .disable_help_flag(true)
        .disable_version_flag(true)
}

// The command with one more option behind those that it has, where it could be made.
pub fn with_option<'a>(
    command: Result<Command<'a>, AllocError>,
    option: Arg<'a>,
) -> Result<Command<'a>, AllocError>
    requires { option.global ≡ false }
    ensures { (app : App) → IfOk command.entry (λ c. app_of c ≡ app)
        → IfOk result (λ c. app_of c ≡ with_rule app (rule_of option.entry)) }
{
    command?.arg(option)
}

// The same of an option of this name that has to be there.
pub fn with_required<'a>(
    alloc: Global,
    command: Result<Command<'a>, AllocError>,
    name: &'a str,
) -> Result<Command<'a>, AllocError>
    ensures { (app : App) → IfOk command.entry (λ c. app_of c ≡ app)
        → IfOk result (λ c. app_of c ≡ with_rule app (required_option name.now)) }
{
    with_option(command, required_option(alloc, name))
}

// The command that reads a policy, with no options of its own.
pub fn inputs_command<'a>(alloc: Global, name: &'a str) -> Result<Command<'a>, AllocError>
    ensures { IfOk result (λ c. app_of c ≡ command_with name.now input_options) }
{
    let command = with_required(alloc, Ok(bare_command(alloc, name)), "policy_file");
    let command = with_required(alloc, command, "definitions_directory");
    with_option(command, value_option(alloc, "date"))
}

// Whether clap gave up for want of memory.
fn is_for_memory(error: &Error) -> bool
    ensures { IsTrue result ↔ (kind_of error.now ≡ ErrorKind.OutOfMemory) }
{
    matches!(error.kind(), ErrorKind::OutOfMemory)
}

// The options that clap finds among the words, or none where it refuses them for another cause than memory.
fn matches_of<'a>(
    command: Command<'a>,
    words: &'a [String],
) -> Result<Option<ArgMatches<'a>>, Memory>
    requires { is_simple_and_free (app_of command) ≡ true }
    ensures { IfOk result (λ found.
        rows_found found ≡ rows_in (app_of command.entry) (map string_bytes words.now)) }
{
    match command.try_get_matches_from(words) {
        Ok(matches) => Ok(Some(matches)),
        Err(error) if is_for_memory(&error) => Err(Memory),
        Err(_) => Ok(None),
    }
}

/// The options that clap finds among the words, where the command could be made, or none where it refuses them for
/// another cause than memory.
pub fn find_matches<'a>(
    command: Result<Command<'a>, AllocError>,
    words: &'a [String],
) -> Result<Option<ArgMatches<'a>>, Memory>
    requires { IfOk command (λ c. is_simple_and_free (app_of c) ≡ true) }
    ensures { (app : App) → IfOk command.entry (λ c. app_of c ≡ app)
        → IfOk result (λ found. rows_found found ≡ rows_in app (map string_bytes words.now)) }
{
    matches_of(command?, words)
}
