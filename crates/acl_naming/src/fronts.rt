ghost use Rattle.std.specs.Prelude.{◌≤◌, length};

/// The first bytes of a text, `shown` in contracts.
///
/// What stands behind them may be looked at too, so that mostly there are as many bytes as one look takes.
#[derive(Clone, Copy)]
pub struct Front<'a> {
    pub(crate) text: &'a [u8],
    pub(crate) size: usize,
    ghost within: { size ≤ length text.now },
}
