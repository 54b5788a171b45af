//! The tokens of a piece.
ghost use Rattle.std.specs.Prelude.{◌≡◌, ◌≤◌, ◌<◌, ◌^◌, length, drop, IsTrue, [], ◌∷◌, IfSome, IfNone};
ghost use Rattle.std.specs.List.{prefix_len, list_all};
ghost use Rattle.spec_syntax.specs.Word.{is_word_start, is_word_byte, is_digit, is_word};
ghost use Rattle.spec_reader.specs.Tokens.{sign_text, keyword_text, sign_at, keyword_of, is_printable, is_string_byte, word_of, string_of, front_at, tokens_from, value, is_spelled};
ghost use Rattle.spec_reader.specs.TokenView.{plain};

use crate::cut::gap_len;

/// The signs.
#[derive(Clone, Copy, PartialEq, Eq, Debug)]
pub(crate) enum Sign {
    Assign,
    AtMost,
    AtLeast,
    Equals,
    Semicolon,
    Colon,
    Comma,
    OpenParen,
    CloseParen,
    OpenBracket,
    CloseBracket,
    OpenBrace,
    CloseBrace,
}

/// The reserved words.
#[derive(Clone, Copy, PartialEq, Eq, Debug)]
pub(crate) enum Keyword {
    Z,
    Epsilon,
    Atom,
    Union,
    Prod,
    Sequence,
    Set,
    PowerSet,
    Cycle,
    Subst,
    Card,
    Size,
    AllSizes,
    After,
    Labelled,
    Unlabelled,
    Labeled,
    Unlabeled,
    Count,
    Draw,
    AllStructs,
    IterStructs,
    NextStruct,
    Finished,
    Cursor,
    Rest,
    GfEqns,
    GfSeries,
    Labellings,
    MarkCounts,
    Combination,
    Subset,
    Permutation,
    Partition,
    Composition,
}

impl Sign {
    /// The signs, those with two bytes first.
    const ALL: [Sign; 13] = [
        Sign::Assign,
        Sign::AtMost,
        Sign::AtLeast,
        Sign::Equals,
        Sign::Semicolon,
        Sign::Colon,
        Sign::Comma,
        Sign::OpenParen,
        Sign::CloseParen,
        Sign::OpenBracket,
        Sign::CloseBracket,
        Sign::OpenBrace,
        Sign::CloseBrace,
    ];

    /// How the sign is spelled.
    pub(crate) fn text(self) -> &'static [u8]
        ensures { result.now ≡ sign_text self }
    {
        match self {
            Sign::Assign => b":=",
            Sign::AtMost => b"<=",
            Sign::AtLeast => b">=",
            Sign::Equals => b"=",
            Sign::Semicolon => b";",
            Sign::Colon => b":",
            Sign::Comma => b",",
            Sign::OpenParen => b"(",
            Sign::CloseParen => b")",
            Sign::OpenBracket => b"[",
            Sign::CloseBracket => b"]",
            Sign::OpenBrace => b"{",
            Sign::CloseBrace => b"}",
        }
    }
}

impl Keyword {
    const ALL: [Keyword; 35] = [
        Keyword::Z,
        Keyword::Epsilon,
        Keyword::Atom,
        Keyword::Union,
        Keyword::Prod,
        Keyword::Sequence,
        Keyword::Set,
        Keyword::PowerSet,
        Keyword::Cycle,
        Keyword::Subst,
        Keyword::Card,
        Keyword::Size,
        Keyword::AllSizes,
        Keyword::After,
        Keyword::Labelled,
        Keyword::Unlabelled,
        Keyword::Labeled,
        Keyword::Unlabeled,
        Keyword::Count,
        Keyword::Draw,
        Keyword::AllStructs,
        Keyword::IterStructs,
        Keyword::NextStruct,
        Keyword::Finished,
        Keyword::Cursor,
        Keyword::Rest,
        Keyword::GfEqns,
        Keyword::GfSeries,
        Keyword::Labellings,
        Keyword::MarkCounts,
        Keyword::Combination,
        Keyword::Subset,
        Keyword::Permutation,
        Keyword::Partition,
        Keyword::Composition,
    ];

    /// How the word is spelled.
    pub(crate) fn text(self) -> &'static [u8]
        ensures { result.now ≡ keyword_text self }
    {
        match self {
            Keyword::Z => b"Z",
            Keyword::Epsilon => b"Epsilon",
            Keyword::Atom => b"Atom",
            Keyword::Union => b"Union",
            Keyword::Prod => b"Prod",
            Keyword::Sequence => b"Sequence",
            Keyword::Set => b"Set",
            Keyword::PowerSet => b"PowerSet",
            Keyword::Cycle => b"Cycle",
            Keyword::Subst => b"Subst",
            Keyword::Card => b"card",
            Keyword::Size => b"size",
            Keyword::AllSizes => b"allsizes",
            Keyword::After => b"after",
            Keyword::Labelled => b"labelled",
            Keyword::Unlabelled => b"unlabelled",
            Keyword::Labeled => b"labeled",
            Keyword::Unlabeled => b"unlabeled",
            Keyword::Count => b"count",
            Keyword::Draw => b"draw",
            Keyword::AllStructs => b"allstructs",
            Keyword::IterStructs => b"iterstructs",
            Keyword::NextStruct => b"nextstruct",
            Keyword::Finished => b"finished",
            Keyword::Cursor => b"cursor",
            Keyword::Rest => b"rest",
            Keyword::GfEqns => b"gfeqns",
            Keyword::GfSeries => b"gfseries",
            Keyword::Labellings => b"labellings",
            Keyword::MarkCounts => b"markcounts",
            Keyword::Combination => b"Combination",
            Keyword::Subset => b"Subset",
            Keyword::Permutation => b"Permutation",
            Keyword::Partition => b"Partition",
            Keyword::Composition => b"Composition",
        }
    }
}

/// The longest sign at the front of `text`.
fn sign_at(text: &[u8]) -> Option<Sign>
    ensures { result ≡ sign_at text.now }
{
    Sign::ALL
        .iter()
        .copied()
        .find(|sign| text.starts_with(sign.text()))
}

/// The reserved word that `text` is.
fn keyword_of(text: &[u8]) -> Option<Keyword>
    ensures { result ≡ keyword_of text.now }
{
    Keyword::ALL
        .iter()
        .copied()
        .find(|keyword| keyword.text() == text)
}

/// Whether a word can begin with `byte`.
fn is_word_start(byte: u8) -> bool
    ensures { result ≡ is_word_start byte }
{
    matches!(byte, b'A'..=b'Z' | b'a'..=b'z' | b'_')
}

/// Whether `byte` can stand in a word.
fn is_word_byte(byte: u8) -> bool
    ensures { result ≡ is_word_byte byte }
{
    is_word_start(byte) || is_digit(byte)
}

fn is_digit(byte: u8) -> bool
    ensures { result ≡ is_digit byte }
{
    matches!(byte, b'0'..=b'9')
}

fn is_printable(byte: u8) -> bool
    ensures { result ≡ is_printable byte }
{
    matches!(byte, b' '..=b'~')
}

/// Whether `byte` can stand in a string.
fn is_string_byte(byte: u8) -> bool
    ensures { result ≡ is_string_byte byte }
{
    is_printable(byte) && byte != b'"'
}

/// The number of bytes of the word at the front of `text`.
fn word_len(text: &[u8]) -> usize
    ensures value { result ≡ prefix_len is_word_byte text.now }
    ensures within { result ≤ length text.now }
{
    text.iter().take_while(|byte| is_word_byte(**byte)).count()
}

/// The number of digits at the front of `text`.
fn digits_len(text: &[u8]) -> usize
    ensures value { result ≡ prefix_len is_digit text.now }
    ensures within { result ≤ length text.now }
{
    text.iter().take_while(|byte| is_digit(**byte)).count()
}

/// The number of bytes at the front of `text` that can stand in a string.
fn string_len(text: &[u8]) -> usize
    ensures value { result ≡ prefix_len is_string_byte text.now }
    ensures within { result ≤ length text.now }
{
    text.iter()
        .take_while(|byte| is_string_byte(**byte))
        .count()
}

/// The number of bytes from 32 to 126 at the front of `text`.
fn printable_len(text: &[u8]) -> usize
    ensures value { result ≡ prefix_len is_printable text.now }
    ensures within { result ≤ length text.now }
{
    text.iter().take_while(|byte| is_printable(**byte)).count()
}

/// A token.
#[derive(Clone, Copy, Debug)]
pub(crate) enum Token<'a> {
    Mark(Sign),
    Reserved(Keyword),
    /// A word that isn't reserved.
    Name(&'a [u8]),
    /// The digits of a number.
    Number(&'a [u8]),
    /// What stands between the quotes of a string.
    Text(&'a [u8]),
    /// A byte that begins no token.
    Stray,
}

/// A token, its place, and the place after its last byte. A stray byte has the place of its fault.
#[derive(Clone, Copy, Debug)]
pub(crate) struct Placed<'a> {
    pub(crate) token: Token<'a>,
    pub(crate) at: usize,
    pub(crate) end: usize,
}

/// A word as a token.
fn word(text: &[u8]) -> Token<'_>
    requires { IsTrue (is_word text.now) }
    ensures value { plain result ≡ word_of text.now }
    ensures spelled { IsTrue (is_spelled (plain result)) }
{
    match keyword_of(text) {
        Some(keyword) => Token::Reserved(keyword),
        None => Token::Name(text),
    }
}

/// The token at the front of `text`, with places in `text`.
fn front(text: &[u8]) -> Placed<'_>
    requires { 0 < length text.now }
    ensures token { plain result.token ≡ (front_at text.now).token }
    ensures at { result.at ≡ (front_at text.now).place }
    ensures end { result.end ≡ (front_at text.now).len }
    ensures spelled { IsTrue (is_spelled (plain result.token)) }
    ensures forward { 0 < result.end }
    ensures within { result.at ≤ length text.now }
    ensures ends_within { result.end ≤ length text.now }
{
    if is_word_start(text[0]) {
        let len = word_len(text);
        return whole(word(&text[..len]), len);
    }
    if is_digit(text[0]) {
        let len = digits_len(text);
        return whole(Token::Number(&text[..len]), len);
    }
    if text[0] == b'"' {
        return string(text);
    }
    match sign_at(text) {
        Some(sign) => whole(Token::Mark(sign), sign.text().len()),
        None => whole(Token::Stray, 1),
    }
}

/// A token at the front of a text, which has `len` bytes.
fn whole(token: Token<'_>, len: usize) -> Placed<'_>
    ensures token { result.token ≡ token.entry }
    ensures at { result.at ≡ 0 }
    ensures end { result.end ≡ len }
{
    Placed {
        token,
        at: 0,
        end: len,
    }
}

/// The string at the front of `text`, which begins with `"`.
fn string(text: &[u8]) -> Placed<'_>
    requires { 0 < length text.now }
    ensures token { plain result.token ≡ (string_of (drop 1 text.now)).token }
    ensures at { result.at ≡ (string_of (drop 1 text.now)).place }
    ensures end { result.end ≡ (string_of (drop 1 text.now)).len }
    ensures spelled { IsTrue (is_spelled (plain result.token)) }
    ensures within { result.at ≤ length text.now }
    ensures ends_within { result.end ≤ length text.now }
{
    let rest = &text[1..];
    let len = string_len(rest);
    if rest[len..].starts_with(b"\"") {
        whole(Token::Text(&rest[..len]), len + 2)
    } else {
        Placed {
            token: Token::Stray,
            at: 1 + printable_len(rest),
            end: 1,
        }
    }
}

/// The first token of `piece` from place `from` on, or `None` where only blanks and comments are left.
pub(crate) fn next_token(piece: &[u8], from: usize) -> Option<Placed<'_>>
    requires { from ≤ length piece.now }
    ensures end { IfNone result (tokens_from 0 from (drop from piece.now) ≡ []) }
    ensures token { IfSome result (λ placed. tokens_from 0 from (drop from piece.now)
        ≡ record { token = plain placed.token; at = placed.at } ∷ tokens_from 0 placed.end (drop placed.end piece.now)) }
    ensures spelled { IfSome result (λ placed. IsTrue (is_spelled (plain placed.token))) }
    ensures forward { IfSome result (λ placed. from < placed.end) }
    ensures within { IfSome result (λ placed. placed.at ≤ length piece.now) }
    ensures ends_within { IfSome result (λ placed. placed.end ≤ length piece.now) }
{
    let start = from + gap_len(&piece[from..]);
    if start == piece.len() {
        return None;
    }
    let front = front(&piece[start..]);
    Some(Placed {
        token: front.token,
        at: start + front.at,
        end: start + front.end,
    })
}

/// The number that `digits` write, or `None` where it is above `u128::MAX`.
pub(crate) fn number(digits: &[u8]) -> Option<u128>
    requires { IsTrue (list_all is_digit digits.now) }
    ensures value { IfSome result (λ n. n ≡ value digits.now) }
    ensures big { IfNone result (2 ^ 128 ≤ value digits.now) }
{
    let mut number: u128 = 0;
    for digit in digits {
        number = number
            .checked_mul(10)?
            .checked_add(u128::from(*digit - b'0'))?;
    }
    Some(number)
}
