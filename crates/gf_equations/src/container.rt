//! The terms of containers.
ghost use Rattle.std.specs.Prelude.{◌≡◌, ◌<◌, ◌^◌, ◌-◌, IfOk};
ghost use Rattle.gf_equations.specs.Text.{inverse, logarithm, exponential, power, powers, sequence, labelled_set, labelled_cycle, unlabelled_set, sign, container, element_depth};

use crate::bound::Bound;
use crate::term::{Term, around, index, push_number};
use spec_syntax::{Bytes, Kind, Universe};
use std::alloc::{AllocError, Global};

/// 1 divided by 1 less the factor.
fn inverse(alloc: Global, factor: &[u8]) -> Result<Bytes, AllocError>
    ensures { IfOk result (λ text. text ≡ inverse factor.now) }
{
    around(alloc, b"1/(1 - ", factor, b")")
}

/// The logarithm of that.
fn logarithm(alloc: Global, factor: &[u8]) -> Result<Bytes, AllocError>
    ensures { IfOk result (λ text. text ≡ logarithm factor.now) }
{
    around(alloc, b"log(", inverse(alloc, factor)?.as_slice(), b")")
}

/// The exponential of a text.
fn exponential(alloc: Global, text: &[u8]) -> Result<Bytes, AllocError>
    ensures { IfOk result (λ whole. whole ≡ exponential text.now) }
{
    around(alloc, b"exp(", text, b")")
}

/// A power of the factor.
fn power(alloc: Global, factor: &[u8], exponent: u32) -> Result<Bytes, AllocError>
    ensures { IfOk result (λ text. text ≡ power factor.now exponent) }
{
    let mut text = Bytes::from_slice(alloc, factor)?;
    text.extend_from_slice(b"^")?;
    push_number(exponent, &mut text)?;
    Ok(text)
}

/// The sum of the powers of the factor from one to another, each divided as is told.
fn powers(
    alloc: Global,
    factor: &[u8],
    divided: &[u8],
    first: u32,
    last: u32,
) -> Result<Bytes, AllocError>
    ensures { IfOk result (λ text. text ≡ powers factor.now divided.now first last) }
{
    let mut text = around(alloc, b"Sum(", factor, b"^i")?;
    text.extend_from_slice(divided)?;
    text.extend_from_slice(b", i = ")?;
    push_number(first, &mut text)?;
    text.extend_from_slice(b" .. ")?;
    push_number(last, &mut text)?;
    text.extend_from_slice(b")")?;
    Ok(text)
}

/// A Sequence over the factor.
fn sequence(alloc: Global, bound: Bound, factor: &[u8]) -> Result<Term, AllocError>
    ensures { IfOk result (λ term. term ≡ sequence bound factor.now) }
{
    match bound {
        Bound::Any => Ok(Term::compound(inverse(alloc, factor)?)),
        Bound::Exactly(k) => Ok(Term::compound(power(alloc, factor, k)?)),
        Bound::AtMost(k) => Ok(Term::simple(powers(alloc, factor, b"", 0, k)?)),
        Bound::AtLeast(k) => {
            let mut text = power(alloc, factor, k)?;
            text.extend_from_slice(b"/(1 - ")?;
            text.extend_from_slice(factor)?;
            text.extend_from_slice(b")")?;
            Ok(Term::compound(text))
        }
    }
}

/// A Set, or a PowerSet, over the element in a labelled grammar.
fn labelled_set(alloc: Global, bound: Bound, element: &Term) -> Result<Term, AllocError>
    ensures { IfOk result (λ term. term ≡ labelled_set bound element.now) }
{
    let factor = element.factor(alloc)?;
    let factor = factor.as_slice();
    match bound {
        Bound::Any => Ok(Term::simple(exponential(alloc, element.text.as_slice())?)),
        Bound::Exactly(k) => {
            let mut text = power(alloc, factor, k)?;
            text.extend_from_slice(b"/")?;
            push_number(k, &mut text)?;
            text.extend_from_slice(b"!")?;
            Ok(Term::compound(text))
        }
        Bound::AtMost(k) => Ok(Term::simple(powers(alloc, factor, b"/i!", 0, k)?)),
        Bound::AtLeast(k) => {
            let mut text = exponential(alloc, element.text.as_slice())?;
            text.extend_from_slice(b" - ")?;
            text.extend_from_slice(powers(
                alloc,
                factor,
                b"/i!",
                0,
                k.saturating_sub(1),
            )?.as_slice())?;
            Ok(Term::compound(text))
        }
    }
}

/// A Cycle over the factor in a labelled grammar.
fn labelled_cycle(alloc: Global, bound: Bound, factor: &[u8]) -> Result<Term, AllocError>
    ensures { IfOk result (λ term. term ≡ labelled_cycle bound factor.now) }
{
    match bound {
        Bound::Any | Bound::AtLeast(0 | 1) => Ok(Term::simple(logarithm(alloc, factor)?)),
        Bound::Exactly(0) => Ok(Term::simple(Bytes::from_slice(alloc, b"0")?)),
        Bound::Exactly(k) => {
            let mut text = power(alloc, factor, k)?;
            text.extend_from_slice(b"/")?;
            push_number(k, &mut text)?;
            Ok(Term::compound(text))
        }
        Bound::AtMost(k) => Ok(Term::simple(powers(alloc, factor, b"/i", 1, k)?)),
        Bound::AtLeast(k) => {
            let mut text = logarithm(alloc, factor)?;
            text.extend_from_slice(b" - ")?;
            text.extend_from_slice(powers(alloc, factor, b"/i", 1, k - 1)?.as_slice())?;
            Ok(Term::compound(text))
        }
    }
}

/// The sign of a term in the sum of a PowerSet.
fn sign(alloc: Global, index: &[u8]) -> Result<Bytes, AllocError>
    ensures { IfOk result (λ text. text ≡ sign index.now) }
{
    around(alloc, b"(-1)^(", index, b" - 1)*")
}

/// A Set or a PowerSet over the factor in an unlabelled grammar, with the sign and the index of its sum.
fn unlabelled_set(
    alloc: Global,
    sign: &[u8],
    index: &[u8],
    factor: &[u8],
) -> Result<Term, AllocError>
    ensures { IfOk result (λ term. term ≡ unlabelled_set sign.now index.now factor.now) }
{
    let mut text = around(alloc, b"exp(Sum(", sign, factor)?;
    text.extend_from_slice(b"/")?;
    text.extend_from_slice(index)?;
    text.extend_from_slice(b", ")?;
    text.extend_from_slice(index)?;
    text.extend_from_slice(b" = 1 .. infinity))")?;
    Ok(Term::simple(text))
}

/// The depth of the element of a container that stands at a depth.
pub(crate) fn element_depth(kind: Kind, universe: Universe, depth: u32) -> u32
    requires { depth < 2 ^ 32 - 1 }
    ensures { result ≡ element_depth kind universe depth }
{
    match (kind, universe) {
        (Kind::Sequence, Universe::Labelled | Universe::Unlabelled) => depth,
        (Kind::Set | Kind::PowerSet | Kind::Cycle, Universe::Labelled) => depth,
        (Kind::Set | Kind::PowerSet | Kind::Cycle, Universe::Unlabelled) => depth + 1,
    }
}

/// A container at a depth over the element.
pub(crate) fn container(
    alloc: Global,
    kind: Kind,
    universe: Universe,
    depth: u32,
    bound: Bound,
    element: &Term,
) -> Result<Term, AllocError>
    requires { depth < 2 ^ 32 - 1 }
    ensures { IfOk result (λ term. term ≡ container kind universe depth bound element.now) }
{
    let factor = element.factor(alloc)?;
    let factor = factor.as_slice();
    let index = index(alloc, depth + 1)?;
    let index = index.as_slice();
    match (kind, universe) {
        (Kind::Sequence, Universe::Labelled | Universe::Unlabelled) => {
            sequence(alloc, bound, factor)
        }
        (Kind::Set | Kind::PowerSet, Universe::Labelled) => labelled_set(alloc, bound, element),
        (Kind::Set, Universe::Unlabelled) => unlabelled_set(alloc, b"", index, factor),
        (Kind::PowerSet, Universe::Unlabelled) => {
            unlabelled_set(alloc, sign(alloc, index)?.as_slice(), index, factor)
        }
        (Kind::Cycle, Universe::Labelled | Universe::Unlabelled) => {
            labelled_cycle(alloc, bound, factor)
        }
    }
}
