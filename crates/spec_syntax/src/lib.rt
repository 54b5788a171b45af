//! The types of grammars and of statements.
//!
//! A contract sees an expression as a plain tree and a specification as the list of its rules, so capacities and
//! allocators take no part in any of them.
#![tactic(auto)]

mod expr;
mod spec;
mod statement;

pub use expr::{Card, Expr, ExprShape, Kind};
use seq::Seq;
pub use spec::Spec;
pub use statement::{
    ClassRef, Family, Form, Ground, Item, Job, RulesRef, SizeArg, Statement, Universe,
};

/// A list of bytes.
pub type Bytes = Seq<u8>;

/// The name of a rule or of a bound value: its bytes.
pub type Name = Seq<u8>;

/// A list of expressions.
pub type Exprs = Seq<Expr>;

/// A list of items of a ground.
pub type Items = Seq<Item>;
