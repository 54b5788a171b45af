//! Laws of the definitions. Each is what a function without a body ensures.
ghost use Rattle.splits.specs.Laws.{SplitsAreListed, PartsAreListed, PartsAreCounted};

/// Each way to split a supply in a part and the rest is there once, in the lexicographic order of the parts.
pub fn splits_are_listed()
    ensures { SplitsAreListed }
{}

/// Each way to split a supply in a part whose length lies within bounds and the rest is there once, in the lexicographic
/// order of the parts.
pub fn parts_are_listed()
    ensures { PartsAreListed }
{}

/// Of labels there are as many parts of a length as there are ways to choose so many, and of zeros there is one.
pub fn parts_are_counted()
    ensures { PartsAreCounted }
{}
