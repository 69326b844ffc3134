ghost use Rattle.std.specs.Prelude.{◌≡◌, ◌==◌, option_map};
ghost use Rattle.std.specs.List.{list_all, slice_split};
ghost use Rattle.acl_words.specs.IncludeLines.{
  is_quote,
  is_printable,
  is_part,
  is_path,
  is_comment,
  asked_path,
  asked_quoted,
  asked_behind,
  asked_word,
  asked_in,
};
ghost use Rattle.acl_words.specs.IncludeLineSteps.{asked_view, HasGoodPath};

use acl_text::{is_white, skip_white, split_at_byte};

/// What a line asks to include.
pub(crate) enum Asked<'a> {
    Nothing,
    /// No path of the form that is taken: the text between the quotes, if any.
    Wrong(&'a [u8]),
    Wanted(&'a [u8]),
}

fn is_quote(b: u8) -> bool
    ensures { result ≡ is_quote b }
{
    b == b'\'' || b == b'"'
}

fn is_printable(b: u8) -> bool
    ensures { result ≡ is_printable b }
{
    32 <= b && b <= 126
}

fn are_printable(path: &[u8]) -> bool
    ensures { result ≡ list_all is_printable path.now }
{
    path.iter().all(|b| is_printable(*b))
}

fn is_part(part: &[u8]) -> bool
    ensures { result ≡ is_part part.now }
{
    match part {
        [] => false,
        [b] => *b != b'.',
        [b, c] => !(*b == b'.' && *c == b'.'),
        _ => true,
    }
}

fn are_parts(path: &[u8]) -> bool
    ensures { result ≡ list_all is_part (slice_split (λ b. b == 47) path.now) }
{
    path.split(|b| *b == b'/').all(|part| is_part(part))
}

fn is_path(path: &[u8]) -> bool
    ensures { result ≡ is_path path.now }
{
    path.len() <= 255 && are_printable(path) && are_parts(path)
}

fn is_comment(rest: &[u8]) -> bool
    ensures { result ≡ is_comment rest.now }
{
    match rest {
        [] => true,
        [b, ..] => *b == b'#',
    }
}

fn asked_path<'a>(parts: Option<(&'a [u8], &'a [u8])>) -> Asked<'a>
    ensures view { asked_view result
        ≡ asked_path (option_map (λ p. (p.0.now, p.1.now)) parts.entry) }
    ensures path { HasGoodPath (asked_view result) }
{
    match parts {
        None => Asked::Wrong(b""),
        Some((path, rest)) if is_path(path) && is_comment(skip_white(rest)) => {
            Asked::Wanted(path)
        }
        Some((path, _)) => Asked::Wrong(path),
    }
}

fn asked_quoted(line: &[u8]) -> Asked<'_>
    ensures view { asked_view result ≡ asked_quoted line.now }
    ensures path { HasGoodPath (asked_view result) }
{
    match line {
        [quote, behind @ ..] if is_quote(*quote) => asked_path(split_at_byte(behind, *quote)),
        _ => Asked::Nothing,
    }
}

fn asked_behind(line: &[u8]) -> Asked<'_>
    ensures view { asked_view result ≡ asked_behind line.now }
    ensures path { HasGoodPath (asked_view result) }
{
    match line {
        [b, behind @ ..] if is_white(*b) => asked_quoted(skip_white(behind)),
        _ => Asked::Nothing,
    }
}

fn asked_word(line: &[u8]) -> Asked<'_>
    ensures view { asked_view result ≡ asked_word line.now }
    ensures path { HasGoodPath (asked_view result) }
{
    match line {
        [b'#', ..] if line.starts_with(b"#include") => asked_behind(&line[8..]),
        _ => Asked::Nothing,
    }
}

/// What the line asks to include.
pub(crate) fn asked_in(line: &[u8]) -> Asked<'_>
    ensures view { asked_view result ≡ asked_in line.now }
    ensures path { HasGoodPath (asked_view result) }
{
    asked_word(skip_white(line))
}
