/// How a word is meant.
#[derive(Clone, Copy, PartialEq, Eq)]
pub enum Form {
    /// A run of bytes without `::`.
    Plain,
    /// A run of bytes up to and with its first `::`.
    Keyword,
    /// `{`.
    Begin,
    /// `}`.
    End,
    /// The bytes between two `"`, over line ends too.
    Quoted,
    /// A `"` that no second one follows. The text is `"`.
    Unclosed,
    /// A run with a byte that no word may have. The text is the first such byte.
    Bad,
}
