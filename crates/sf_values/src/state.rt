/// Where the reading of a text with escapes stands.
#[derive(Clone, Copy)]
pub(crate) enum State {
    /// At a byte that may stand for itself.
    Plain,
    /// Behind a quote.
    Quote,
    /// Behind a backslash.
    Backslash,
    /// Behind `\x`.
    Code,
    /// Behind `\x` and a digit of this value.
    Digit(u8),
}
