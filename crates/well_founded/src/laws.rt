//! What holds of the check by its definition.
ghost use Rattle.well_founded.specs.Laws.{SaysSome, SaysOne};

/// The check of a specification and a class symbol says something, and never two things.
pub fn each_grammar_has_one_check()
    ensures some { SaysSome }
    ensures one { SaysOne }
{}
