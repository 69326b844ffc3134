ghost use Rattle.std.specs.Prelude.{◌≡◌, ◌<◌, ◌≤◌, ◌+◌, ◌^◌, length};
ghost use Rattle.acl_text.specs.Cursors.{lines_of};
ghost use Rattle.acl_words.specs.FileLines.{feeds_in, is_ended, may_include};

/// Whether `#i` stands in the text. Where it does not, no line of it is an include line.
///
/// Each byte is looked at, so that the machine can look at many of them in one step.
pub(crate) fn may_include(text: &[u8]) -> bool
    ensures { result ≡ may_include 0 text.now }
{
    let mut found = false;
    let mut before = 0;
    for byte in text {
        found |= before == b'#' && *byte == b'i';
        before = *byte;
    }
    found
}

/// The most bytes whose line feeds are counted in one byte.
const PART: usize = 255;

/// How many line feeds stand in a short text.
fn few_feeds(text: &[u8]) -> u8
    requires { length text.now ≤ 255 }
    ensures { result ≡ feeds_in text.now }
{
    let mut count = 0;
    for byte in text {
        count += u8::from(*byte == b'\n');
    }
    count
}

/// How many line feeds stand in the text.
///
/// They are counted part by part, since the machine adds many numbers of one byte in one step.
#[tactic(auto, using(crate::proofs::FileTextLaws::feeds_parted, crate::proofs::FileTextLaws::feeds_within))]
fn feeds_in(text: &[u8]) -> u32
    requires { length text.now < 2 ^ 32 }
    ensures exact { result ≡ feeds_in text.now }
    ensures within { result ≤ length text.now }
{
    let mut count = 0;
    let mut rest = text;
    while !rest.is_empty() {
        let (part, behind) = rest.split_at(rest.len().min(PART));
        count += u32::from(few_feeds(part));
        rest = behind;
    }
    count
}

/// Whether the last line of the text, where it has one, ends in a line feed.
#[tactic(auto, using(crate::proofs::FileTextLaws::last_ends))]
pub(crate) fn is_ended(text: &[u8]) -> bool
    ensures { result ≡ is_ended text.now }
{
    match text {
        [] => true,
        [.., last] => *last == b'\n',
    }
}

/// How many lines the text has.
#[tactic(auto, using(crate::proofs::FileTextLaws::line_count))]
pub(crate) fn line_count(text: &[u8]) -> u32
    requires { length text.now + 1 < 2 ^ 32 }
    ensures exact { result ≡ length (lines_of text.now) }
    ensures within { result ≤ length text.now + 1 }
{
    if is_ended(text) {
        feeds_in(text)
    } else {
        feeds_in(text) + 1
    }
}
