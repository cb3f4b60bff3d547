//! The words and the marks of a line.

ghost use Rattle.std.specs.Prelude.{◌≡◌, ◌≤◌, false, length, take, drop};
ghost use Rattle.std.specs.List.{list_all};
ghost use Rattle.rv_asm.specs.Syntax.{is_between, is_blank, is_clean, is_digit, is_hex_digit, is_letter, is_name_byte, is_mnemonic_byte, is_word_byte, is_name, is_mnemonic, word_at, tokens_of, lexed, mark_of, begins_blank};

/// What stands next in a line.
#[derive(Clone, Copy, PartialEq, Eq, Debug)]
pub enum Kind {
    /// The line's end.
    End,
    /// Letters, digits, `_`, `.` and `-`, as many as there are.
    Word,
    Comma,
    Open,
    Close,
    Colon,
    /// Any other byte that isn't a blank.
    Other,
}

/// What stands next in a line, and what follows it.
#[derive(Clone, Copy, Debug)]
pub(crate) struct Lexeme<'a> {
    pub(crate) kind: Kind,
    /// The word: empty where it isn't one.
    pub(crate) word: &'a [u8],
    pub(crate) rest: &'a [u8],
}

fn is_between(low: u8, high: u8, byte: u8) -> bool
    ensures { result ≡ is_between low high byte }
{
    low <= byte && byte <= high
}

#[tactic(auto, unfolding(crate::specs::Syntax::is_blank))]
pub(crate) fn is_blank(byte: u8) -> bool
    ensures { result ≡ is_blank byte }
{
    byte == b' ' || byte == b'\t'
}

/// Whether a byte may stand in a source, apart from line feeds.
#[tactic(auto, unfolding(crate::specs::Syntax::is_clean))]
pub(crate) fn is_clean(byte: u8) -> bool
    ensures { result ≡ is_clean byte }
{
    is_blank(byte) || is_between(33, 126, byte)
}

#[tactic(auto, unfolding(crate::specs::Syntax::is_digit))]
pub(crate) fn is_digit(byte: u8) -> bool
    ensures { result ≡ is_digit byte }
{
    is_between(b'0', b'9', byte)
}

#[tactic(auto, unfolding(crate::specs::Syntax::is_hex_digit))]
pub(crate) fn is_hex_digit(byte: u8) -> bool
    ensures { result ≡ is_hex_digit byte }
{
    is_digit(byte) || is_between(b'A', b'F', byte) || is_between(b'a', b'f', byte)
}

#[tactic(auto, unfolding(crate::specs::Syntax::is_letter))]
fn is_letter(byte: u8) -> bool
    ensures { result ≡ is_letter byte }
{
    is_between(b'A', b'Z', byte) || is_between(b'a', b'z', byte) || byte == b'_'
}

#[tactic(auto, unfolding(crate::specs::Syntax::is_name_byte))]
fn is_name_byte(byte: u8) -> bool
    ensures { result ≡ is_name_byte byte }
{
    is_letter(byte) || is_digit(byte)
}

#[tactic(auto, unfolding(crate::specs::Syntax::is_mnemonic_byte))]
fn is_mnemonic_byte(byte: u8) -> bool
    ensures { result ≡ is_mnemonic_byte byte }
{
    is_name_byte(byte) || byte == b'.'
}

#[tactic(auto, unfolding(crate::specs::Syntax::is_word_byte))]
fn is_word_byte(byte: u8) -> bool
    ensures { result ≡ is_word_byte byte }
{
    is_name_byte(byte) || byte == b'.' || byte == b'-'
}

fn are_name_bytes(bytes: &[u8]) -> bool
    ensures { result ≡ list_all is_name_byte bytes.now }
{
    bytes.iter().all(|byte| is_name_byte(*byte))
}

fn are_mnemonic_bytes(bytes: &[u8]) -> bool
    ensures { result ≡ list_all is_mnemonic_byte bytes.now }
{
    bytes.iter().all(|byte| is_mnemonic_byte(*byte))
}

/// Whether a word can be a label or a register.
pub(crate) fn is_name(word: &[u8]) -> bool
    ensures { result ≡ is_name word.now }
{
    match word.split_first() {
        None => false,
        Some((first, rest)) => is_letter(*first) && are_name_bytes(rest),
    }
}

/// Whether a word can be a mnemonic.
pub(crate) fn is_mnemonic(word: &[u8]) -> bool
    ensures { result ≡ is_mnemonic word.now }
{
    match word.split_first() {
        None => false,
        Some((first, rest)) => (is_letter(*first) || *first == b'.') && are_mnemonic_bytes(rest),
    }
}

/// How many bytes the word has that a text begins with.
fn word_length(text: &[u8]) -> usize
    ensures within { result ≤ length text.now }
    ensures word { take result text.now ≡ word_at text.now }
{
    let mut end = 0usize;
    while end < text.len() && is_word_byte(text[end]) {
        end += 1;
    }
    end
}

/// The kind of a byte that is no part of a word and no blank.
fn mark(byte: u8) -> Kind
    ensures { result ≡ mark_of byte }
{
    match byte {
        b',' => Kind::Comma,
        b'(' => Kind::Open,
        b')' => Kind::Close,
        b':' => Kind::Colon,
        _ => Kind::Other,
    }
}

/// Whether a text begins with a blank.
fn begins_blank(text: &[u8]) -> bool
    ensures { result ≡ begins_blank text.now }
{
    match text.split_first() {
        None => false,
        Some((first, _)) => is_blank(*first),
    }
}

/// All but the first byte.
fn skip_first(text: &[u8]) -> &[u8]
    ensures { result.now ≡ drop 1 text.now }
{
    match text {
        [] => text,
        [_, rest @ ..] => rest,
    }
}

/// A text without the blanks that it begins with.
#[tactic(auto, using(crate::proofs::Tokens::skip_blank, crate::proofs::Tokens::skip_shorter))]
fn skip_blanks(text: &[u8]) -> &[u8]
    ensures same { tokens_of result.now ≡ tokens_of text.now }
    ensures not_blank { begins_blank result.now ≡ false }
{
    let mut rest = text;
    while begins_blank(rest) {
        rest = skip_first(rest);
    }
    rest
}

/// What stands next in a text.
pub(crate) fn next_token(text: &[u8]) -> Lexeme<'_>
    ensures { tokens_of text.now ≡ lexed result.kind result.word.now (tokens_of result.rest.now) }
{
    let text = skip_blanks(text);
    let (word, rest) = text.split_at(word_length(text));
    if !word.is_empty() {
        return Lexeme {
            kind: Kind::Word,
            word,
            rest,
        };
    }
    match rest.split_first() {
        None => Lexeme {
            kind: Kind::End,
            word,
            rest,
        },
        Some((first, rest)) => Lexeme {
            kind: mark(*first),
            word,
            rest,
        },
    }
}
