//! Refusals, and the lines that tell them.
ghost use Rattle.std.specs.Prelude.{◌≡◌, ◌++◌, OnOk, OnErr, ℕ, List, codes, decimal};
ghost use Rattle.session.specs.Refusals.{IsTold, ReadingIsTold, CheckIsTold, which_word, reading_number, check_number, refusal_number, reading_text, check_text, group_text, place_text, refusal_text, refusal_line};

use itoa::Buffer;
use size_counts::{Group, Place};
use spec_reader::{ReadRefused, Which};
use spec_syntax::{Bytes, Name};
use std::alloc::{AllocError, Global};
use well_founded::Refused;

/// Why a piece of a script is refused.
#[derive(Debug, Drop)]
pub enum Refusal {
    /// The piece isn't read.
    Read(ReadRefused),
    /// This name isn't bound.
    UnknownName(Name),
    /// This name is bound to something of another kind than its place wants.
    WrongKind(Name),
    /// As many names are bound as can be.
    Full,
    /// The iterator of this name has given all.
    Finished(Name),
    /// The class doesn't pass the check.
    Grammar(Refused),
    /// The number at this place, in the rule of this name, is the first that has more than 128 bits.
    TooLarge(Name, Place),
    /// The number of a predefined class has more than 128 bits.
    ClassTooLarge,
    /// A draw meets a PowerSet in an unlabelled grammar, in the rule of this name.
    PowerSet(Name),
    /// There is no structure to draw.
    NoStructure,
    /// There are no bits left that would do for a draw.
    Spent,
    /// The cursor is no structure of the class.
    NotMember,
    /// The rule of this name holds a Set or a PowerSet with a bound, in an unlabelled grammar of which equations are wanted.
    CardUnlabelled(Name),
}

/// The word of a limit.
fn which_word(which: Which) -> &'static [u8]
    ensures { result.now ≡ which_word which }
{
    match which {
        Which::Statement => b"statement",
        Which::Script => b"script",
        Which::Rules => b"rules",
        Which::Nodes => b"nodes",
        Which::Depth => b"depth",
        Which::Name => b"name",
        Which::Number => b"number",
        Which::Size => b"size",
        Which::Items => b"items",
    }
}

/// The number of the refusal of a piece that isn't read.
fn reading_number(refused: &ReadRefused) -> u32
    ensures { result ≡ reading_number refused.now }
{
    match refused {
        ReadRefused::Syntax(_, _) => 1,
        ReadRefused::DuplicateRule(_) => 2,
        ReadRefused::Limit(_) => 3,
        ReadRefused::NotText => 4,
        ReadRefused::Memory => 0,
    }
}

/// The number of the refusal of a class that doesn't pass the check.
fn check_number(refused: &Refused) -> u32
    ensures { result ≡ check_number refused.now }
{
    match refused {
        Refused::Undefined(_) => 20,
        Refused::Unproductive(_) => 22,
        Refused::NullElement(_) => 23,
        Refused::Endless(_, _) => 24,
        Refused::CycleUnlabelled(_) => 26,
        Refused::Memory => 0,
    }
}

/// The number of a refusal.
pub(crate) fn refusal_number(refusal: &Refusal) -> u32
    ensures { result ≡ refusal_number refusal.now }
{
    match refusal {
        Refusal::Read(refused) => reading_number(refused),
        Refusal::UnknownName(_) => 10,
        Refusal::WrongKind(_) => 11,
        Refusal::Full => 12,
        Refusal::Finished(_) => 13,
        Refusal::Grammar(refused) => check_number(refused),
        Refusal::TooLarge(_, _) | Refusal::ClassTooLarge => 30,
        Refusal::PowerSet(_) => 40,
        Refusal::NoStructure => 41,
        Refusal::Spent => 42,
        Refusal::NotMember => 50,
        Refusal::CardUnlabelled(_) => 60,
    }
}

/// Appends a number in decimal digits.
fn push_number(n: u32, text: &mut Bytes) -> Result<(), AllocError>
    ensures { OnOk result (text.new ≡ text.old ++ decimal n) }
{
    text.extend_from_slice(Buffer::new().format(n).as_bytes())
}

/// Appends the words around a name.
fn push_around(before: &[u8], name: &Name, after: &[u8], text: &mut Bytes) -> Result<(), AllocError>
    ensures { OnOk result (text.new ≡ text.old ++ (before.now ++ name.now ++ after.now)) }
{
    text.extend_from_slice(before)?;
    text.extend_from_slice(name.as_slice())?;
    text.extend_from_slice(after)
}

/// Appends the words before a name, and the name.
fn push_before(before: &[u8], name: &Name, text: &mut Bytes) -> Result<(), AllocError>
    ensures { OnOk result (text.new ≡ text.old ++ (before.now ++ name.now)) }
{
    text.extend_from_slice(before)?;
    text.extend_from_slice(name.as_slice())
}

/// Appends where the syntax is at fault.
fn push_syntax(line: u32, column: u32, text: &mut Bytes) -> Result<(), AllocError>
    ensures { OnOk result (text.new ≡ text.old ++ reading_text (ReadRefused.Syntax line column)) }
{
    text.extend_from_slice(b"syntax at line ")?;
    push_number(line, text)?;
    text.extend_from_slice(b" column ")?;
    push_number(column, text)
}

/// Appends which limit is passed.
fn push_limit(which: Which, text: &mut Bytes) -> Result<(), AllocError>
    ensures { OnOk result (text.new ≡ text.old ++ reading_text (ReadRefused.Limit which)) }
{
    text.extend_from_slice(b"limit ")?;
    text.extend_from_slice(which_word(which))
}

/// Appends why a piece isn't read.
fn push_reading(refused: &ReadRefused, text: &mut Bytes) -> Result<(), AllocError>
    requires { ReadingIsTold refused.now }
    ensures { OnOk result (text.new ≡ text.old ++ reading_text refused.now) }
{
    match refused {
        ReadRefused::Syntax(line, column) => push_syntax(*line, *column, text),
        ReadRefused::DuplicateRule(name) => push_around(b"rule ", name, b" is written twice", text),
        ReadRefused::Limit(which) => push_limit(*which, text),
        ReadRefused::NotText => text.extend_from_slice(b"not UTF-8"),
        ReadRefused::Memory => unreachable!(),
    }
}

/// Appends which rule has endlessly many structures, and of which size.
fn push_endless(name: &Name, size: u32, text: &mut Bytes) -> Result<(), AllocError>
    ensures { OnOk result (text.new ≡ text.old ++ check_text (Refused.Endless name.now size)) }
{
    push_around(
        b"rule ",
        name,
        b" has endlessly many structures of size ",
        text,
    )?;
    push_number(size, text)
}

/// Appends why a class doesn't pass the check.
fn push_check(refused: &Refused, text: &mut Bytes) -> Result<(), AllocError>
    requires { CheckIsTold refused.now }
    ensures { OnOk result (text.new ≡ text.old ++ check_text refused.now) }
{
    match refused {
        Refused::Undefined(name) => push_before(b"no rule for ", name, text),
        Refused::Unproductive(name) => push_around(b"rule ", name, b" has no structure", text),
        Refused::NullElement(name) => push_around(
            b"rule ",
            name,
            b" has a container over a class with a structure of size 0",
            text,
        ),
        Refused::Endless(name, size) => push_endless(name, *size, text),
        Refused::CycleUnlabelled(name) => {
            push_before(b"Cycle in an unlabelled grammar, rule ", name, text)
        }
        Refused::Memory => unreachable!(),
    }
}

/// Appends the words before a number, and the number.
fn push_numbered(before: &[u8], n: u32, text: &mut Bytes) -> Result<(), AllocError>
    ensures { OnOk result (text.new ≡ text.old ++ (before.now ++ decimal n)) }
{
    text.extend_from_slice(before)?;
    push_number(n, text)
}

/// Appends a group of numbers, with the number's index in it.
fn push_group(group: Group, index: u32, text: &mut Bytes) -> Result<(), AllocError>
    ensures { OnOk result (text.new ≡ text.old ++ group_text group index) }
{
    match group {
        Group::Count => text.extend_from_slice(b"count"),
        Group::Suffix => push_numbered(b"suffix ", index, text),
        Group::Lists => push_numbered(b"lists ", index, text),
        Group::Sets => push_numbered(b"sets ", index, text),
    }
}

/// Appends which number of a node of the rule with this name is too large.
fn push_place(name: &Name, place: Place, text: &mut Bytes) -> Result<(), AllocError>
    ensures { OnOk result (text.new ≡ text.old ++ place_text name.now place) }
{
    push_around(b"a number passes 128 bits: ", name, b", node ", text)?;
    push_number(place.node, text)?;
    text.extend_from_slice(b", ")?;
    push_group(place.group, place.index, text)?;
    text.extend_from_slice(b", size ")?;
    push_number(place.size, text)
}

/// Appends what a refusal says.
fn push_reason(refusal: &Refusal, text: &mut Bytes) -> Result<(), AllocError>
    requires { IsTold refusal.now }
    ensures { OnOk result (text.new ≡ text.old ++ refusal_text refusal.now) }
{
    match refusal {
        Refusal::Read(refused) => push_reading(refused, text),
        Refusal::UnknownName(name) => push_around(b"name ", name, b" is not bound", text),
        Refusal::WrongKind(name) => push_around(b"name ", name, b" is of another kind", text),
        Refusal::Full => text.extend_from_slice(b"64 names are bound"),
        Refusal::Finished(name) => push_around(b"iterator ", name, b" is finished", text),
        Refusal::Grammar(refused) => push_check(refused, text),
        Refusal::TooLarge(name, place) => push_place(name, *place, text),
        Refusal::ClassTooLarge => text.extend_from_slice(b"a number passes 128 bits: the class"),
        Refusal::PowerSet(name) => {
            push_before(b"draw meets an unlabelled PowerSet, rule ", name, text)
        }
        Refusal::NoStructure => text.extend_from_slice(b"no structure to draw"),
        Refusal::Spent => text.extend_from_slice(b"the bits are spent"),
        Refusal::NotMember => text.extend_from_slice(b"the cursor is no member"),
        Refusal::CardUnlabelled(name) => push_before(
            b"gfeqns of an unlabelled container with a card bound, rule ",
            name,
            text,
        ),
    }
}

/// Appends the line that tells a refusal of a piece that begins in this line.
fn push_line(line: u32, refusal: &Refusal, text: &mut Bytes) -> Result<(), AllocError>
    requires { IsTold refusal.now }
    ensures { OnOk result (text.new ≡ text.old ++ refusal_line line refusal.now) }
{
    text.extend_from_slice(b"line ")?;
    push_number(line, text)?;
    text.extend_from_slice(b": error ")?;
    push_number(refusal_number(refusal), text)?;
    text.extend_from_slice(b": ")?;
    push_reason(refusal, text)?;
    text.extend_from_slice(b"\n")
}

/// Appends the line that tells a refusal of a piece that begins in this line of the script. The refusal isn't want of
/// memory in one of its parts.
///
/// # Errors
///
/// Where memory is wanting the text is as before.
pub fn refusal_line(
    alloc: Global,
    line: u32,
    refusal: &Refusal,
    text: &mut Bytes,
) -> Result<(), AllocError>
    requires told { IsTold refusal.now }
    ensures ok { OnOk result (text.new ≡ text.old ++ refusal_line line refusal.now) }
    ensures err { OnErr result (text.new ≡ text.old) }
{
    let mut told = Bytes::new(alloc);
    push_line(line, refusal, &mut told)?;
    text.extend_from_slice(told.as_slice())
}
