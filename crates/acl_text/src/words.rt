ghost use Rattle.std.specs.Prelude.{◌≡◌, ◌≤◌, ◌<◌, length, IfSome, IfNone};
ghost use Rattle.std.specs.List.{prefix_len};
ghost use Rattle.acl_text.specs.Cursors.{HasNoWord, IsNextWord, is_black, is_white, run_end, without_white, word_at};

/// The bounds of the next word of the line from a place on: of the next run of bytes that are not white space.
/// `None` exactly where none is left.
pub fn next_word(line: &[u8], from: usize) -> Option<(usize, usize)>
    requires { from ≤ length line.now }
    ensures some { IfSome result (λ w. IsNextWord line.now from w.0 w.1) }
    ensures none { IfNone result (HasNoWord line.now from) }
    ensures exact { result ≡ word_at line.now from }
{
    let start = white_end(line, from);
    if start == line.len() {
        return None;
    }
    Some((start, black_end(line, start)))
}

/// Whether the byte is white space: a tab, a carriage return or a space.
pub fn is_white(byte: u8) -> bool
    ensures { result ≡ is_white byte }
{
    byte == b'\t' || byte == b'\r' || byte == b' '
}

fn white_end(line: &[u8], from: usize) -> usize
    requires { from ≤ length line.now }
    ensures exact { result ≡ run_end is_white line.now from }
    ensures fits { result ≤ length line.now }
{
    from + white_front(&line[from..])
}

fn black_end(line: &[u8], from: usize) -> usize
    requires { from ≤ length line.now }
    ensures exact { result ≡ run_end is_black line.now from }
    ensures fits { result ≤ length line.now }
{
    from + black_front(&line[from..])
}

fn white_front(bytes: &[u8]) -> usize
    ensures exact { result ≡ prefix_len is_white bytes.now }
    ensures fits { result ≤ length bytes.now }
{
    for (i, byte) in bytes.iter().enumerate() {
        if !is_white(*byte) {
            return i;
        }
    }
    bytes.len()
}

fn black_front(bytes: &[u8]) -> usize
    ensures exact { result ≡ prefix_len is_black bytes.now }
    ensures fits { result ≤ length bytes.now }
{
    for (i, byte) in bytes.iter().enumerate() {
        if is_white(*byte) {
            return i;
        }
    }
    bytes.len()
}

/// The text behind the white space at its front.
pub fn skip_white(text: &[u8]) -> &[u8]
    ensures { result.now ≡ without_white text.now }
{
    for (i, byte) in text.iter().enumerate() {
        if !is_white(*byte) {
            return &text[i..];
        }
    }
    &[]
}
