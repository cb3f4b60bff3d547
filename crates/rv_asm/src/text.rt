//! The lines of a text.

ghost use Rattle.std.specs.Prelude.{◌≡◌, ◌∷◌, ◌<◌, length, drop};
ghost use Rattle.rv_asm.specs.Source.{lines_of, line_at, from_feed};

/// What stands before the first line feed, and what stands from it on.
fn split_feed(text: &[u8]) -> (&[u8], &[u8])
    ensures line { result.0.now ≡ line_at text.now }
    ensures from { result.1.now ≡ from_feed text.now }
{
    let mut end = 0usize;
    while end < text.len() && text[end] != b'\n' {
        end += 1;
    }
    text.split_at(end)
}

/// All but the first byte.
fn skip_first(text: &[u8]) -> &[u8]
    ensures { result.now ≡ drop 1 text.now }
{
    match text {
        [] => text,
        [_, rest @ ..] => rest,
    }
}

/// The first line, and what follows it.
pub(crate) fn split_line(text: &[u8]) -> (&[u8], &[u8])
    requires { 0 < length text.now }
    ensures lines { lines_of text.now ≡ result.0.now ∷ lines_of result.1.now }
    ensures shorter { length result.1.now < length text.now }
{
    let (line, rest) = split_feed(text);
    (line, skip_first(rest))
}
