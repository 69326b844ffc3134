use acl_words::Token;

/// A keyword or a brace, and words behind it up to the next one.
#[derive(Clone, Copy)]
pub(crate) struct Clause<'a> {
    pub(crate) keyword: &'a Token<'a>,
    pub(crate) values: &'a [Token<'a>],
}
