//! The forms of the texts of structures.

/// The form in which the texts of structures are written.
#[derive(Clone, Copy, PartialEq, Eq, Debug)]
pub enum TextForm {
    /// Maple's form, which leaves out the chosen argument of a Union. Two structures of a class may look alike in it.
    Maple,
    /// The form that tells the number of the chosen argument too, and reads back to one structure.
    Tagged,
}
