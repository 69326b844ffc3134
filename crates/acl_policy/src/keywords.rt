ghost use Rattle.std.specs.Prelude.{◌≡◌, ◌≤◌, ◌<◌, if◌then◌else◌, length, None, Some, IfSome, option_map};
ghost use Rattle.std.specs.Str.{bytes_eq};
ghost use Rattle.acl_policy.specs.Keywords.{entry, row_of, row_named};

use crate::values::Takes;

/// A keyword of a term.
#[derive(Clone, Copy, PartialEq, Eq)]
pub enum Keyword {
    Comment,
    Owner,
    Action,
    SourceAddress,
    SourceExclude,
    DestinationAddress,
    DestinationExclude,
    /// `address::`: of either side.
    Address,
    Protocol,
    SourcePort,
    DestinationPort,
    /// `port::`: of either side.
    Port,
    IcmpType,
    IcmpCode,
    Opt,
    Logging,
    Expiration,
    Platform,
    PlatformExclude,
}

/// A keyword, and what its row of the table says of its values.
#[derive(Clone, Copy, PartialEq, Eq)]
pub(crate) struct KeywordRow {
    pub(crate) keyword: Keyword,
    pub(crate) takes: Takes,
    /// Whether it stands once in a term, with one value.
    pub(crate) once: bool,
}

const ONCE: bool = true;

const AGAIN: bool = false;

/// What the values of the keyword are, and whether it stands once.
fn values_of(keyword: Keyword) -> (Takes, bool)
    ensures { result ≡ ((entry keyword).takes, (entry keyword).once) }
{
    match keyword {
        Keyword::Comment => (Takes::String, AGAIN),
        Keyword::Owner => (Takes::Any, ONCE),
        Keyword::Action => (Takes::Action, ONCE),
        Keyword::Protocol => (Takes::Protocol, AGAIN),
        Keyword::IcmpType => (Takes::IcmpType, AGAIN),
        Keyword::IcmpCode => (Takes::IcmpCode, AGAIN),
        Keyword::Opt => (Takes::Opt, AGAIN),
        Keyword::Logging => (Takes::Logging, ONCE),
        Keyword::Expiration => (Takes::Day, ONCE),
        _ => (Takes::Name, AGAIN),
    }
}

/// The keyword's row of the table.
fn row_of(keyword: Keyword) -> KeywordRow
    ensures { result ≡ row_of keyword }
{
    let (takes, once) = values_of(keyword);
    KeywordRow {
        keyword,
        takes,
        once,
    }
}

/// How a keyword is written.
type Written<'a> = (&'a [u8], Keyword);

/// The keyword, where the text is the one that it is written by.
#[inline(always)]
fn only(text: &[u8], written: Written<'_>) -> Option<Keyword>
    ensures { result ≡ (if bytes_eq text.now written.entry.0.now then Some written.entry.1 else None) }
{
    if text == written.0 {
        Some(written.1)
    } else {
        None
    }
}

/// The one of two keywords that is written so.
#[inline(always)]
fn either(text: &[u8], first: Written<'_>, second: Written<'_>) -> Option<Keyword>
    ensures { result ≡ (if bytes_eq text.now first.entry.0.now then Some first.entry.1
        else if bytes_eq text.now second.entry.0.now then Some second.entry.1 else None) }
{
    if text == first.0 {
        Some(first.1)
    } else {
        only(text, second)
    }
}

/// The keyword that is written so, of those that are shorter than ten bytes.
fn short_keyword(text: &[u8]) -> Option<Keyword>
    requires { length text.now < 10 }
    ensures { option_map row_of result ≡ row_named text.now }
{
    match text.len() {
        6 => only(text, (b"port::", Keyword::Port)),
        7 => only(text, (b"owner::", Keyword::Owner)),
        8 => either(
            text,
            (b"action::", Keyword::Action),
            (b"option::", Keyword::Opt),
        ),
        9 => only(text, (b"comment::", Keyword::Comment)).or(either(
            text,
            (b"address::", Keyword::Address),
            (b"logging::", Keyword::Logging),
        )),
        _ => None,
    }
}

/// The keyword that is written so, of the longer ones.
fn long_keyword(text: &[u8]) -> Option<Keyword>
    requires { 10 ≤ length text.now }
    ensures { option_map row_of result ≡ row_named text.now }
{
    match text.len() {
        10 => either(
            text,
            (b"protocol::", Keyword::Protocol),
            (b"platform::", Keyword::Platform),
        ),
        11 => either(
            text,
            (b"icmp-type::", Keyword::IcmpType),
            (b"icmp-code::", Keyword::IcmpCode),
        ),
        12 => only(text, (b"expiration::", Keyword::Expiration)),
        13 => only(text, (b"source-port::", Keyword::SourcePort)),
        16 => either(
            text,
            (b"source-address::", Keyword::SourceAddress),
            (b"source-exclude::", Keyword::SourceExclude),
        ),
        18 => either(
            text,
            (b"destination-port::", Keyword::DestinationPort),
            (b"platform-exclude::", Keyword::PlatformExclude),
        ),
        21 => either(
            text,
            (b"destination-address::", Keyword::DestinationAddress),
            (b"destination-exclude::", Keyword::DestinationExclude),
        ),
        _ => None,
    }
}

/// The keyword that is written so. Those of its length alone are looked at.
fn keyword_of(text: &[u8]) -> Option<Keyword>
    ensures { option_map row_of result ≡ row_named text.now }
{
    if text.len() < 10 {
        short_keyword(text)
    } else {
        long_keyword(text)
    }
}

/// The row of the keyword that is written so.
pub(crate) fn row_named(text: &[u8]) -> Option<KeywordRow>
    ensures named { result ≡ row_named text.now }
    ensures of_table { IfSome result (λ r. r ≡ row_of r.keyword) }
{
    match keyword_of(text) {
        Some(keyword) => Some(row_of(keyword)),
        None => None,
    }
}
