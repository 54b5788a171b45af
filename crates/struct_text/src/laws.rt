//! What holds of the texts of structures by their definition.
ghost use Rattle.struct_text.specs.Laws.{OneText};

/// A tagged text is of no more than one structure of a name.
pub fn a_tagged_text_is_of_one_structure()
    ensures { OneText }
{}
