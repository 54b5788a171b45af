//! Terms: the texts of which equations are made.
ghost use Rattle.std.specs.Prelude.{◌≡◌, ◌++◌, ◌≤◌, codes, decimal, IfOk, OnOk};
ghost use Rattle.std.specs.List.{join_by};
ghost use Rattle.gf_equations.specs.Text.{simple, compound, factor, sum_of, product_of, index, indices, argument, call};

use itoa::Buffer;
use spec_syntax::Bytes;
use std::alloc::{AllocError, Global};

/// A text, and whether it can be a factor without parentheses.
#[derive(Drop)]
pub(crate) struct Term {
    pub(crate) text: Bytes,
    pub(crate) is_simple: bool,
}

impl Term {
    /// A text that can be a factor as it is.
    pub(crate) fn simple(text: Bytes) -> Term
        ensures { result ≡ simple text }
    {
        Term {
            text,
            is_simple: true,
        }
    }

    /// A text that wants parentheses as a factor.
    pub(crate) fn compound(text: Bytes) -> Term
        ensures { result ≡ compound text }
    {
        Term {
            text,
            is_simple: false,
        }
    }

    /// The text as a factor.
    ///
    /// # Errors
    ///
    /// Memory may be wanting.
    pub(crate) fn factor(&self, alloc: Global) -> Result<Bytes, AllocError>
        ensures { IfOk result (λ text. text ≡ factor self.now) }
    {
        if self.is_simple {
            Bytes::from_slice(alloc, self.text.as_slice())
        } else {
            around(alloc, b"(", self.text.as_slice(), b")")
        }
    }
}

/// The text with other ones before and after it.
pub(crate) fn around(
    alloc: Global,
    before: &[u8],
    inside: &[u8],
    after: &[u8],
) -> Result<Bytes, AllocError>
    ensures { IfOk result (λ text. text ≡ before.now ++ inside.now ++ after.now) }
{
    let mut text = Bytes::from_slice(alloc, before)?;
    text.extend_from_slice(inside)?;
    text.extend_from_slice(after)?;
    Ok(text)
}

/// Puts a number at the end, in decimal digits.
pub(crate) fn push_number(number: u32, text: &mut Bytes) -> Result<(), AllocError>
    ensures { OnOk result (text.new ≡ text.old ++ decimal number) }
{
    text.extend_from_slice(Buffer::new().format(number).as_bytes())
}

/// `j` and the number.
pub(crate) fn index(alloc: Global, number: u32) -> Result<Bytes, AllocError>
    ensures { IfOk result (λ text. text ≡ index number) }
{
    let mut text = Bytes::from_slice(alloc, b"j")?;
    push_number(number, &mut text)?;
    Ok(text)
}

/// The product of the indices from 1 to a number.
fn indices(alloc: Global, number: u32) -> Result<Bytes, AllocError>
    requires { 1 ≤ number }
    ensures { IfOk result (λ text. text ≡ indices number) }
{
    let mut text = index(alloc, 1)?;
    for earlier in 1..number {
        text.extend_from_slice(b"*j")?;
        push_number(earlier + 1, &mut text)?;
    }
    Ok(text)
}

/// The argument at a depth.
pub(crate) fn argument(alloc: Global, variable: &[u8], depth: u32) -> Result<Term, AllocError>
    ensures { IfOk result (λ term. term ≡ argument variable.now depth) }
{
    match depth {
        0 => Ok(Term::simple(Bytes::from_slice(alloc, variable)?)),
        1 => Ok(Term::compound(around(alloc, b"", variable, b"^j1")?)),
        _ => {
            let mut text = around(alloc, variable, b"^(", indices(alloc, depth)?.as_slice())?;
            text.extend_from_slice(b")")?;
            Ok(Term::compound(text))
        }
    }
}

/// The generating function of the rule with this name at an argument.
pub(crate) fn call(alloc: Global, name: &[u8], argument: &[u8]) -> Result<Term, AllocError>
    ensures { IfOk result (λ term. term ≡ call name.now argument.now) }
{
    let mut text = around(alloc, name, b"(", argument)?;
    text.extend_from_slice(b")")?;
    Ok(Term::simple(text))
}

/// The texts of the terms, with plus signs between them.
fn sum_text(alloc: Global, terms: &[Term]) -> Result<Bytes, AllocError>
    ensures { IfOk result (λ text. text ≡ join_by (λ t. t.text) (codes " + ") terms.now) }
{
    let [first, others @ ..] = terms else {
        return Ok(Bytes::new(alloc));
    };
    let mut text = Bytes::from_slice(alloc, first.text.as_slice())?;
    for other in others {
        text.extend_from_slice(b" + ")?;
        text.extend_from_slice(other.text.as_slice())?;
    }
    Ok(text)
}

/// The terms as factors, with multiplication signs between them.
fn product_text(alloc: Global, terms: &[Term]) -> Result<Bytes, AllocError>
    ensures { IfOk result (λ text. text ≡ join_by factor (codes "*") terms.now) }
{
    let [first, others @ ..] = terms else {
        return Ok(Bytes::new(alloc));
    };
    let mut text = first.factor(alloc)?;
    for other in others {
        text.extend_from_slice(b"*")?;
        text.extend_from_slice(other.factor(alloc)?.as_slice())?;
    }
    Ok(text)
}

/// The sum of the terms. One alone is itself.
pub(crate) fn sum_of(alloc: Global, mut terms: Vec<Term>) -> Result<Term, AllocError>
    ensures { IfOk result (λ term. term ≡ sum_of terms.items) }
{
    if terms.len() == 1 {
        Ok(terms.remove(0))
    } else {
        Ok(Term::compound(sum_text(alloc, terms.as_slice())?))
    }
}

/// The product of the terms. One alone is itself.
pub(crate) fn product_of(alloc: Global, mut terms: Vec<Term>) -> Result<Term, AllocError>
    ensures { IfOk result (λ term. term ≡ product_of terms.items) }
{
    if terms.len() == 1 {
        Ok(terms.remove(0))
    } else {
        Ok(Term::compound(product_text(alloc, terms.as_slice())?))
    }
}
