//! What stands around the structure that is read, and where the reading stands.
use struct_model::{Form5, Struct, Structs};

/// What stands directly around a structure.
#[derive(Drop)]
pub(crate) enum Hole {
    /// The structure is that of the rule of this number, which isn't a bare word.
    Named(u32),
    /// It is one of a Union's argument of this number, counted from 1.
    Alt(u32),
    /// It is a component of the Prod that this node is, behind these.
    Factor(u32, Structs),
    /// It is a component of a container of this form behind these. Each is a structure of this node.
    Element(Form5, u32, Structs),
}

/// Where the reading stands.
#[derive(Drop)]
pub(crate) enum Place {
    /// In front of a structure of this node.
    Before(u32),
    /// Behind this structure.
    Behind(Struct),
}
