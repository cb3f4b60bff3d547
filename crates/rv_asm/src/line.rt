//! The parts of a line: its label, its mnemonic and its operands, as words.

ghost use Rattle.std.specs.Prelude.{◌≡◌, Some, None};
ghost use Rattle.rv_asm.specs.Syntax.{tokens_of, closed, third_word, third_in, second_word, offset_in, after_second, second_in, one_number, after_first, operands_in, statement_in, line_in, uncommented, is_clean, line_of};
ghost use Rattle.rv_asm.specs.Seen.{some_parts_seen, some_line_seen, word_seen};
ghost use Rattle.std.specs.List.{list_all};

use crate::number::is_number;
use crate::token::{Kind, is_clean, is_mnemonic, is_name, next_token};

/// Which operands a line has: names (w) and numbers (n).
#[derive(Clone, Copy, PartialEq, Eq, Debug)]
pub enum Shape {
    /// None.
    Nothing,
    /// `n`
    Number,
    /// `w,n`
    NameNumber,
    /// `w,w`
    NameName,
    /// `w,w,n`
    NameNameNumber,
    /// `w,w,w`
    NameNameName,
    /// `w,n(w)`
    NameOffset,
    /// `w,(w)`
    NameAddress,
    /// `w,w,(w)`
    NameNameAddress,
}

/// An instruction's words. An operand that its shape hasn't is empty.
#[derive(Clone, Copy, Debug)]
pub(crate) struct Parts<'a> {
    pub(crate) mnemonic: &'a [u8],
    pub(crate) shape: Shape,
    pub(crate) first: &'a [u8],
    pub(crate) second: &'a [u8],
    pub(crate) third: &'a [u8],
}

/// What a line has.
#[derive(Clone, Copy, Debug)]
pub(crate) struct Line<'a> {
    pub(crate) label: Option<&'a [u8]>,
    pub(crate) statement: Option<Parts<'a>>,
}

/// `w)` at the end.
fn closed(text: &[u8]) -> Option<&[u8]>
    ensures { word_seen result ≡ closed (tokens_of text.now) }
{
    let word = next_token(text);
    let Kind::Word = word.kind else {
        return None;
    };
    let bracket = next_token(word.rest);
    let Kind::Close = bracket.kind else {
        return None;
    };
    match next_token(bracket.rest).kind {
        Kind::End if is_name(word.word) => Some(word.word),
        _ => None,
    }
}

/// A third operand that is a word.
fn third_word<'a>(
    mnemonic: &'a [u8],
    first: &'a [u8],
    second: &'a [u8],
    third: &'a [u8],
) -> Option<Parts<'a>>
    ensures { some_parts_seen result ≡ third_word mnemonic.now first.now second.now third.now }
{
    let shape = if is_name(third) {
        Shape::NameNameName
    } else if is_number(third) {
        Shape::NameNameNumber
    } else {
        return None;
    };
    Some(Parts {
        mnemonic,
        shape,
        first,
        second,
        third,
    })
}

/// After `w,w,`.
fn third_in<'a>(
    mnemonic: &'a [u8],
    first: &'a [u8],
    second: &'a [u8],
    text: &'a [u8],
) -> Option<Parts<'a>>
    ensures { some_parts_seen result ≡ third_in mnemonic.now first.now second.now (tokens_of text.now) }
{
    let next = next_token(text);
    match next.kind {
        Kind::Word => match next_token(next.rest).kind {
            Kind::End => third_word(mnemonic, first, second, next.word),
            _ => None,
        },
        Kind::Open => {
            let third = closed(next.rest)?;
            Some(Parts {
                mnemonic,
                shape: Shape::NameNameAddress,
                first,
                second,
                third,
            })
        }
        _ => None,
    }
}

/// A second operand that is a word, and the last.
fn second_word<'a>(mnemonic: &'a [u8], first: &'a [u8], second: &'a [u8]) -> Option<Parts<'a>>
    ensures { some_parts_seen result ≡ second_word mnemonic.now first.now second.now }
{
    let shape = if is_name(second) {
        Shape::NameName
    } else if is_number(second) {
        Shape::NameNumber
    } else {
        return None;
    };
    Some(Parts {
        mnemonic,
        shape,
        first,
        second,
        third: b"",
    })
}

/// A number and a name in brackets.
fn offset_in<'a>(
    mnemonic: &'a [u8],
    first: &'a [u8],
    second: &'a [u8],
    text: &'a [u8],
) -> Option<Parts<'a>>
    ensures { some_parts_seen result ≡ offset_in mnemonic.now first.now second.now (tokens_of text.now) }
{
    if !is_number(second) {
        return None;
    }
    let third = closed(text)?;
    Some(Parts {
        mnemonic,
        shape: Shape::NameOffset,
        first,
        second,
        third,
    })
}

/// After `w,` and a second word.
fn after_second<'a>(
    mnemonic: &'a [u8],
    first: &'a [u8],
    second: &'a [u8],
    text: &'a [u8],
) -> Option<Parts<'a>>
    ensures { some_parts_seen result ≡ after_second mnemonic.now first.now second.now (tokens_of text.now) }
{
    let next = next_token(text);
    match next.kind {
        Kind::End => second_word(mnemonic, first, second),
        Kind::Open => offset_in(mnemonic, first, second, next.rest),
        Kind::Comma if is_name(second) => third_in(mnemonic, first, second, next.rest),
        _ => None,
    }
}

/// After `w,`.
fn second_in<'a>(mnemonic: &'a [u8], first: &'a [u8], text: &'a [u8]) -> Option<Parts<'a>>
    ensures { some_parts_seen result ≡ second_in mnemonic.now first.now (tokens_of text.now) }
{
    let next = next_token(text);
    match next.kind {
        Kind::Word => after_second(mnemonic, first, next.word, next.rest),
        Kind::Open => {
            let second = closed(next.rest)?;
            Some(Parts {
                mnemonic,
                shape: Shape::NameAddress,
                first,
                second,
                third: b"",
            })
        }
        _ => None,
    }
}

/// One operand: a number.
fn one_number<'a>(mnemonic: &'a [u8], first: &'a [u8]) -> Option<Parts<'a>>
    ensures { some_parts_seen result ≡ one_number mnemonic.now first.now }
{
    if !is_number(first) {
        return None;
    }
    Some(Parts {
        mnemonic,
        shape: Shape::Number,
        first,
        second: b"",
        third: b"",
    })
}

/// After the mnemonic and a first word.
fn after_first<'a>(mnemonic: &'a [u8], first: &'a [u8], text: &'a [u8]) -> Option<Parts<'a>>
    ensures { some_parts_seen result ≡ after_first mnemonic.now first.now (tokens_of text.now) }
{
    let next = next_token(text);
    match next.kind {
        Kind::End => one_number(mnemonic, first),
        Kind::Comma if is_name(first) => second_in(mnemonic, first, next.rest),
        _ => None,
    }
}

/// After the mnemonic.
fn operands_in<'a>(mnemonic: &'a [u8], text: &'a [u8]) -> Option<Parts<'a>>
    ensures { some_parts_seen result ≡ operands_in mnemonic.now (tokens_of text.now) }
{
    let next = next_token(text);
    match next.kind {
        Kind::End => Some(Parts {
            mnemonic,
            shape: Shape::Nothing,
            first: b"",
            second: b"",
            third: b"",
        }),
        Kind::Word => after_first(mnemonic, next.word, next.rest),
        _ => None,
    }
}

/// A line with this label, and its statement.
fn statement_in<'a>(label: Option<&'a [u8]>, text: &'a [u8]) -> Option<Line<'a>>
    ensures { some_line_seen result ≡ statement_in (word_seen label.entry) (tokens_of text.now) }
{
    let next = next_token(text);
    match next.kind {
        Kind::End => Some(Line {
            label,
            statement: None,
        }),
        Kind::Word if is_mnemonic(next.word) => {
            let statement = operands_in(next.word, next.rest)?;
            Some(Line {
                label,
                statement: Some(statement),
            })
        }
        _ => None,
    }
}

/// A line without its comment.
fn line_in(text: &[u8]) -> Option<Line<'_>>
    ensures { some_line_seen result ≡ line_in (tokens_of text.now) }
{
    let first = next_token(text);
    let Kind::Word = first.kind else {
        return statement_in(None, text);
    };
    let second = next_token(first.rest);
    let Kind::Colon = second.kind else {
        return statement_in(None, text);
    };
    if is_name(first.word) {
        statement_in(Some(first.word), second.rest)
    } else {
        None
    }
}

/// What stands before the comment.
fn uncommented(text: &[u8]) -> &[u8]
    ensures { result.now ≡ uncommented text.now }
{
    let mut end = 0usize;
    while end < text.len() && text[end] != b'#' {
        end += 1;
    }
    text.split_at(end).0
}

fn all_clean(bytes: &[u8]) -> bool
    ensures { result ≡ list_all is_clean bytes.now }
{
    bytes.iter().all(|byte| is_clean(*byte))
}

/// What a line has: None where it is outside the syntax.
#[tactic(auto, unfolding(crate::specs::Syntax::line_of))]
pub(crate) fn line_of(text: &[u8]) -> Option<Line<'_>>
    ensures { some_line_seen result ≡ line_of text.now }
{
    if all_clean(text) {
        line_in(uncommented(text))
    } else {
        None
    }
}
