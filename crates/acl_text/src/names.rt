ghost use Rattle.std.specs.Prelude.{◌≡◌, true};
ghost use Rattle.std.specs.List.{list_all};
ghost use Rattle.acl_text.specs.Names.{is_letter, is_digit, is_name_byte, is_name, is_filter_name, is_safe_byte, is_safe_text, single_spaced};

/// Whether the text is a name: 1 to 128 letters, digits, `-` and `_`.
pub fn is_name(text: &[u8]) -> bool
    ensures { result ≡ is_name text.now }
{
    match text {
        [] => false,
        [..] => text.len() <= 128 && are_name_bytes(text),
    }
}

/// Whether the text is the name of a filter: a name that begins with a letter, of at most 64 bytes.
pub fn is_filter_name(text: &[u8]) -> bool
    ensures { result ≡ is_filter_name text.now }
{
    match text {
        [first, ..] => is_letter(*first) && text.len() <= 64 && are_name_bytes(text),
        [] => false,
    }
}

/// Whether the text is a free text: 1 to 128 letters, digits, `-`, `_`, `.`, `,`, `:` and spaces, with no
/// space at an end and no two together.
pub fn is_safe_text(text: &[u8]) -> bool
    ensures { result ≡ is_safe_text text.now }
{
    text.len() <= 128 && are_safe_bytes(text) && is_single_spaced(text)
}

/// Whether the byte is a letter of ASCII.
pub fn is_letter(byte: u8) -> bool
    ensures { result ≡ is_letter byte }
{
    65 <= byte && byte <= 90 || 97 <= byte && byte <= 122
}

/// Whether the byte is a digit of ASCII.
pub fn is_digit(byte: u8) -> bool
    ensures { result ≡ is_digit byte }
{
    48 <= byte && byte <= 57
}

// For each byte whether it may stand in a name.
static NAME_BYTES: [u8; 256] =
    *b"nnnnnnnnnnnnnnnnnnnnnnnnnnnnnnnnnnnnnnnnnnnnnynnyyyyyyyyyynnnnnnnyyyyyyyyyyyyyyyyyyyyyyyyyynnnnynyyyyyyyyyyyyyyyyyyyyyyyyyynnnnnnnnnnnnnnnnnnnnnnnnnnnnnnnnnnnnnnnnnnnnnnnnnnnnnnnnnnnnnnnnnnnnnnnnnnnnnnnnnnnnnnnnnnnnnnnnnnnnnnnnnnnnnnnnnnnnnnnnnnnnnnnnnnnnn";

/// Whether the byte may stand in a name: a letter of ASCII, a digit, `-` or `_`.
pub fn is_name_byte(byte: u8) -> bool
    ensures { result ≡ is_name_byte byte }
{
    NAME_BYTES[usize::from(byte)] == b'y'
}

pub(crate) fn is_safe_byte(byte: u8) -> bool
    ensures { result ≡ is_safe_byte byte }
{
    is_name_byte(byte) || matches!(byte, b'.' | b',' | b':' | b' ')
}

fn are_name_bytes(text: &[u8]) -> bool
    ensures { result ≡ list_all is_name_byte text.now }
{
    text.iter().all(|b| is_name_byte(*b))
}

fn are_safe_bytes(text: &[u8]) -> bool
    ensures { result ≡ list_all is_safe_byte text.now }
{
    text.iter().all(|b| is_safe_byte(*b))
}

// Whether each space stands between two bytes that are none.
fn is_single_spaced(text: &[u8]) -> bool
    ensures { result ≡ single_spaced true text.now }
{
    let mut after_space = true;
    for byte in text {
        let is_space = *byte == b' ';
        if after_space && is_space {
            return false;
        }
        after_space = is_space;
    }
    !after_space
}
