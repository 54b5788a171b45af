//! Statements: what a script is made of.
use crate::{Bytes, Items, Name, Spec};

/// Whether the atoms of a structure carry labels.
#[derive(Clone, Copy, PartialEq, Eq, Debug)]
pub enum Universe {
    /// A structure of size n carries the labels 1 to n, each once.
    Labelled,
    /// The atoms carry no labels.
    Unlabelled,
}

/// The rules of a class: written out, or the name that they are bound to.
#[derive(Drop)]
pub enum RulesRef {
    Written(Spec),
    Bound(Name),
}

/// A class: its symbol, rules and universe, or the name that it is bound to.
#[derive(Drop)]
pub enum ClassRef {
    Written(Name, RulesRef, Universe),
    Bound(Name),
}

/// The predefined classes.
#[derive(Clone, Copy, PartialEq, Eq, Debug)]
pub enum Family {
    Combination,
    Subset,
    Permutation,
    Partition,
    Composition,
}

/// An item of a ground.
#[derive(Drop)]
pub enum Item {
    Word(Name),
    Number(u128),
}

/// What a predefined class is over.
#[derive(Drop)]
pub enum Ground {
    /// The number itself, which stands for the items 1 to this number where items are wanted.
    Number(u32),
    /// The items of a list in brackets, with their repeats.
    List(Items),
    /// The items of a list in braces, where repeats count once.
    Braces(Items),
}

/// The sizes of a predefined class that are asked for.
#[derive(Clone, Copy, PartialEq, Eq, Debug)]
pub enum SizeArg {
    /// No size was written.
    Usual,
    /// This size alone.
    Exact(u32),
    /// All sizes.
    All,
}

/// The class and the size that a command is about.
#[derive(Drop)]
pub enum Job {
    /// A class of a grammar at a size.
    Grammar(ClassRef, u32),
    /// A predefined class.
    Ready(Family, Ground, SizeArg),
}

/// What a statement asks for.
#[derive(Drop)]
pub enum Form {
    /// Nothing.
    Empty,
    /// To bind the name to rules.
    Rules(Name, Spec),
    /// To bind the name to a class.
    Class(Name, ClassRef),
    /// To bind the name to an iterator, which goes on after the cursor where there is one.
    Iterate(Name, Job, Option<Bytes>),
    /// The number of structures.
    Count(Job),
    /// All structures.
    List(Job),
    /// A structure drawn at random.
    Draw(Job),
    /// The next structure of an iterator.
    Next(Name),
    /// Whether an iterator has given all.
    Finished(Name),
    /// The cursor of an iterator.
    Cursor(Name),
    /// All that is left of an iterator.
    Rest(Name),
    /// The generating function equations of rules, with the name of their variable.
    Equations(RulesRef, Universe, Name),
}

/// A statement of a script.
#[derive(Drop)]
pub struct Statement {
    pub form: Form,
    /// Whether it ends with a colon, and so writes nothing to out.
    pub quiet: bool,
}
