//! Expressions: how classes are built from classes.
ghost use Rattle.std.specs.Prelude.{◌≡◌, IfOk};
ghost use Rattle.spec_syntax.specs.Card.{admits};

use crate::{Exprs, Name};
use std::alloc::{AllocError, Global};
use std::marker::Model;

/// The four containers.
#[derive(Clone, Copy, PartialEq, Eq, Debug)]
pub enum Kind {
    Sequence,
    Set,
    PowerSet,
    Cycle,
}

/// A bound on the number of components of a container: at least `low`, and at most `high` where it is there.
#[derive(Clone, Copy, PartialEq, Eq, Debug)]
pub struct Card {
    pub low: u32,
    pub high: Option<u32>,
}

impl Card {
    /// Whether a list of `c` components keeps the bound.
    pub fn admits(&self, c: u32) -> bool
        ensures { result ≡ admits self.now c }
    {
        let within = match self.high {
            None => true,
            Some(high) => c <= high,
        };
        self.low <= c && within
    }
}

/// What an expression is, with its parts.
#[cycle(expr)]
#[derive(Drop)]
pub enum ExprShape {
    /// The class of one structure of size 0.
    Epsilon,
    /// The class of one structure of size 1.
    Atom,
    /// The class of the rule with this name.
    Name(Name),
    /// The disjoint union of the arguments.
    Union(Exprs),
    /// The product of the arguments.
    Prod(Exprs),
    /// A container of structures of the element.
    Many(Kind, Box<Expr>, Card),
}

/// An expression of a grammar. A contract sees it as a plain tree.
#[cycle(expr)]
#[derive(Drop)]
pub struct Expr {
    pub shape: ExprShape,
}

impl Model for Expr {
    ghost use Rattle.spec_syntax.specs.Expression.{Expression, nodes};
    ghost use Rattle.spec_syntax.specs.ExpressionCode.{expression_code};

    ghost Value = { Expression };

    ghost coded = { expression_code };

    ghost use Rattle.spec_syntax.specs.ExpressionView.{expression_of};

    ghost view = { λ a. expression_of a.shape };

    ghost size = { nodes };

    ghost use Rattle.spec_syntax.specs.ExpressionFalls.{deep-shape_le};

    ghost size_decreases = { λ a h. deep-shape_le a.shape };
}

/// An expression that is equal to `expr`.
#[cycle(copying)]
pub(crate) fn copy_expr(alloc: Global, expr: &Expr) -> Result<Expr, AllocError>
    ensures { IfOk result (λ copied. copied ≡ expr.now) }
{
    match &expr.shape {
        ExprShape::Epsilon => Ok(Expr {
            shape: ExprShape::Epsilon,
        }),
        ExprShape::Atom => Ok(Expr {
            shape: ExprShape::Atom,
        }),
        ExprShape::Name(name) => {
            let name = Name::from_slice(alloc, name.as_slice())?;
            Ok(Expr {
                shape: ExprShape::Name(name),
            })
        }
        ExprShape::Union(arguments) => {
            let arguments = copy_exprs(alloc, arguments)?;
            Ok(Expr {
                shape: ExprShape::Union(arguments),
            })
        }
        ExprShape::Prod(arguments) => {
            let arguments = copy_exprs(alloc, arguments)?;
            Ok(Expr {
                shape: ExprShape::Prod(arguments),
            })
        }
        ExprShape::Many(kind, element, card) => {
            let element = copy_expr(alloc, element)?;
            let element = Box::new(alloc, element)?;
            Ok(Expr {
                shape: ExprShape::Many(*kind, element, *card),
            })
        }
    }
}

/// A list of expressions that is equal to `exprs`.
#[cycle(copying)]
fn copy_exprs(alloc: Global, exprs: &Exprs) -> Result<Exprs, AllocError>
    ensures { IfOk result (λ copied. copied ≡ exprs.now) }
{
    let mut copied = Exprs::new(alloc);
    for expr in exprs.as_slice() {
        copied.push(copy_expr(alloc, expr)?)?;
    }
    Ok(copied)
}
