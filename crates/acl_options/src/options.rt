ghost use Rattle.std.specs.Prelude.{◌≡◌, IfNone, IfOk, IfSome, map, option_and_then};
ghost use Rattle.std.specs.Option.{option_map};
ghost use Rattle.std.specs.String.{string_bytes};
ghost use Rattle.clap.specs.Words.{app_of, found_of, rows_of};
ghost use Rattle.acl_options.specs.CommandLines.{AsksFor, Options as AskedOptions, command};
ghost use Rattle.acl_options.specs.ComputableOptions.{
  options_in,
  options_of,
  output_in,
  shade_check_in,
  weeks_in,
};
ghost use Rattle.acl_options.specs.CodeViews.{options_view, rows_found};

use crate::commands::{
    defaulted_option, find_matches, flag_option, inputs_command, with_option, with_required,
};
use crate::inputs::{date_in, definitions_in, folder_named, policy_in, value_of};
use acl_host::Day;
use acl_text::{Memory, read_u16};
use clap::{ArgMatches, Command};
use std::alloc::{AllocError, Global};

/// What the words of a command line ask for.
#[derive(Clone, Copy)]
pub struct Options<'a> {
    /// The path of the policy. It is not empty, and does not end in `/`.
    pub policy: &'a str,
    /// The folder of the naming files. It is not empty.
    pub definitions: &'a str,
    /// The folder for the filters. It is not empty.
    pub output: &'a str,
    /// The day for which the filters are made, where the words name one.
    pub date: Option<Day>,
    /// For how many weeks ahead the end of a term is told, 0 to 520.
    pub exp_info: u16,
    /// Whether a shaded term is a fault.
    pub shade_check: bool,
}

// The command line of aclgen.
fn command<'a>(alloc: Global) -> Result<Command<'a>, AllocError>
    ensures { IfOk result (λ c. app_of c ≡ command) }
{
    let command = with_required(alloc, inputs_command(alloc, "aclgen"), "output_directory");
    let command = with_option(command, defaulted_option(alloc, "exp_info", "2"));
    with_option(command, flag_option(alloc, "shade_check"))
}

fn output_in<'a>(matches: &ArgMatches<'a>) -> Option<&'a str>
    ensures { option_map (λ s. s.now) result ≡ output_in (rows_of (found_of matches.now)) }
{
    folder_named(value_of(matches, "output_directory")?)
}

fn weeks_in(matches: &ArgMatches<'_>) -> Option<u16>
    ensures { result ≡ weeks_in (rows_of (found_of matches.now)) }
{
    read_u16(value_of(matches, "exp_info")?.as_bytes(), 520)
}

fn shade_check_in(matches: &ArgMatches<'_>) -> bool
    ensures { result ≡ shade_check_in (rows_of (found_of matches.now)) }
{
    match value_of(matches, "shade_check") {
        Some(text) => text == "true",
        None => false,
    }
}

#[tactic(auto, unfolding(crate::specs::ComputableOptions::options_in))]
fn options_in<'a>(matches: &ArgMatches<'a>) -> Option<Options<'a>>
    ensures { option_map options_view result ≡ options_in (rows_of (found_of matches.now)) }
{
    Some(Options {
        policy: policy_in(matches)?,
        definitions: definitions_in(matches)?,
        output: output_in(matches)?,
        date: date_in(matches)?,
        exp_info: weeks_in(matches)?,
        shade_check: shade_check_in(matches),
    })
}

// The options that clap found, where it took the words.
fn options_among<'a>(found: &Option<ArgMatches<'a>>) -> Option<Options<'a>>
    ensures { option_map options_view result ≡ option_and_then options_in (rows_found found.now) }
{
    options_in(found.as_ref()?)
}

fn options_for(alloc: Global, words: &[String]) -> Result<Option<Options<'_>>, Memory>
    ensures { IfOk result (λ options.
        option_map options_view options ≡ options_of (map string_bytes words.now)) }
{
    let found = find_matches(command(alloc), words)?;
    Ok(options_among(&found))
}

/// What the words behind the program's name ask for, or none where they are no command line:
/// `--policy_file P --definitions_directory D --output_directory O [--date YYYY-MM-DD] [--exp_info N] [--shade_check]`.
///
/// The words are read as clap reads those of a command with these options, and clap's messages are not told. `P`, `D`
/// and `O` are not empty, `P` does not end in `/`, the date is a day of the years 0001 to 9999, and `N` is a number from
/// 0 to 520 in decimal digits, 2 where it is not given. The flag is set where it is given, once and without a value.
/// Memory may be wanted for the parse.
pub fn read_options(alloc: Global, words: &[String]) -> Result<Option<Options<'_>>, Memory>
    ensures some { IfOk result (λ options. IfSome options (λ o.
        AsksFor (map string_bytes words.now) (options_view o))) }
    ensures none { IfOk result (λ options. IfNone options ((o : AskedOptions)
        → AsksFor (map string_bytes words.now) o → ⊥)) }
    ensures exact { IfOk result (λ options.
        option_map options_view options ≡ options_of (map string_bytes words.now)) }
{
    options_for(alloc, words)
}
