ghost use Rattle.std.specs.Prelude.{◌≡◌, ◌≤◌, [], ◌∷◌, codes, length, map, take, IsTrue};
ghost use Rattle.acl_text.specs.Output.{joined};
ghost use Rattle.acl_text.specs.Puts.{Puts};
ghost use Rattle.acl_load.specs.FaultLineSteps.{only_if, space_before};
ghost use Rattle.acl_load.specs.FaultLines.{code_text, fault_line, visible};

use acl_text::{Code, Fault, Out, PutFault, put_pieces};
use itoa::Buffer;

// The most bytes of a word that are printed.
const MOST_OF_WORD: usize = 64;

fn code_text(code: Code) -> &'static str
    ensures { result.now ≡ code_text code }
{
    match code {
        Code::TooLong => "F10 TooLong",
        Code::BadByte => "F11 BadByte",
        Code::BadName => "F12 BadName",
        Code::NoDefinition => "F13 NoDefinition",
        Code::BadValue => "F14 BadValue",
        Code::Twice => "F15 Twice",
        Code::TooMany => "F16 TooMany",
        Code::Undefined => "F17 Undefined",
        Code::Cycle => "F18 Cycle",
        Code::TooManyFiles => "F19 TooManyFiles",
        Code::NoFile => "F20 NoFile",
        Code::IncludeDepth => "F21 IncludeDepth",
        Code::IncludePath => "F22 IncludePath",
        Code::Syntax => "F23 Syntax",
        Code::Keyword => "F24 Keyword",
        Code::Value => "F25 Value",
        Code::Repeated => "F26 Repeated",
        Code::Missing => "F27 Missing",
        Code::TermTwice => "F28 TermTwice",
        Code::TargetLine => "F29 TargetLine",
        Code::FilterTwice => "F30 FilterTwice",
        Code::UnknownName => "F31 UnknownName",
        Code::NoPortForProtocol => "F32 NoPortForProtocol",
        Code::PortProtocol => "F33 PortProtocol",
        Code::IcmpProtocol => "F34 IcmpProtocol",
        Code::OptionProtocol => "F35 OptionProtocol",
        Code::ResetProtocol => "F36 ResetProtocol",
        Code::OptionClash => "F37 OptionClash",
        Code::IncludeCount => "F39 IncludeCount",
        Code::ExtensionHeader => "F40 ExtensionHeader",
        Code::NameLength => "F41 NameLength",
        Code::NameClash => "F42 NameClash",
        Code::Unsupported => "F43 Unsupported",
        Code::TooManyEntries => "F44 TooManyEntries",
        Code::TooManyPrefixes => "F45 TooManyPrefixes",
        Code::IcmpCode => "F46 IcmpCode",
        Code::NoPolicy => "F47 NoPolicy",
        Code::NoDocument => "F48 NoDocument",
        Code::NoSection => "F49 NoSection",
        Code::Shaded => "F50 Shaded",
        Code::NumberRange => "F51 NumberRange",
    }
}

fn visible(byte: u8) -> u8
    ensures { result ≡ visible byte }
{
    if 33 <= byte && byte <= 126 {
        byte
    } else {
        b'?'
    }
}

// The first bytes, at most so many.
fn front_of(bytes: &[u8], most: usize) -> &[u8]
    ensures front { result.now ≡ take most bytes.now }
    ensures short { length result.now ≤ most }
{
    if bytes.len() <= most {
        return bytes;
    }
    &bytes[..most]
}

// The bytes as they are printed, and behind them spaces.
fn visible_bytes(bytes: &[u8]) -> [u8; MOST_OF_WORD]
    requires { length bytes.now ≤ 64 }
    ensures shown { take (length bytes.now) result ≡ map visible bytes.now }
    ensures room { length result ≡ 64 }
{
    let mut shown = [b' '; MOST_OF_WORD];
    for (i, byte) in bytes.iter().enumerate() {
        shown[i] = visible(*byte);
    }
    shown
}

// The text, or nothing.
fn only_if(wanted: bool, text: &[u8]) -> &[u8]
    ensures { result.now ≡ only_if wanted text.now }
{
    if wanted { text } else { b"" }
}

// The space before a word that is there.
fn space_before(word: &[u8]) -> &'static [u8]
    ensures { result.now ≡ space_before word.now }
{
    match word {
        [] => b"",
        [_, ..] => b" ",
    }
}

// Puts a line of these parts.
fn put_parts<O: Out>(
    out: &mut O,
    label: &[u8],
    colon: &[u8],
    number: &[u8],
    code: &[u8],
    space: &[u8],
    word: &[u8],
) -> Result<(), PutFault>
    requires { IsTrue (O.is_open out.old) }
    ensures { Puts O.Out out.old out.new
        (joined (label.now ∷ colon.now ∷ number.now ∷ codes ": " ∷ code.now ∷ space.now
        ∷ word.now ∷ codes "\n" ∷ [])) result }
{
    put_pieces(
        out,
        &[label, colon, number, b": ", code, space, word, b"\n"],
    )
}

/// Puts the line that names a fault: its label and line, its code, and its word.
///
/// `:LINE` is left out where there is no line, and the word where there is none. Of the word at most 64 bytes are
/// put, each that is no visible ASCII as `?`. It refuses only as a `put` did.
pub fn put_fault<O: Out>(out: &mut O, fault: &Fault) -> Result<(), PutFault>
    requires { IsTrue (O.is_open out.old) }
    ensures { Puts O.Out out.old out.new (fault_line fault.now) result }
{
    let mut buffer = Buffer::new();
    let number = buffer.format(fault.line).as_bytes();
    let has_line = fault.line != 0;
    let word = front_of(fault.word.as_slice(), MOST_OF_WORD);
    let shown = visible_bytes(word);
    put_parts(
        out,
        fault.label.as_slice(),
        only_if(has_line, b":"),
        only_if(has_line, number),
        code_text(fault.code).as_bytes(),
        space_before(fault.word.as_slice()),
        &shown[..word.len()],
    )
}
