//! What holds of the numbers of a class by their definition.
ghost use Rattle.size_counts.specs.Laws.{SaysSome, SaysOne};

/// The numbers of a class up to a size say something, and never two things.
pub fn numbers_of_a_class_say_one_thing()
    ensures some { SaysSome }
    ensures one { SaysOne }
{}
