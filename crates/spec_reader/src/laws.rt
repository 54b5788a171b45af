//! Laws of pieces and of what they read as.
ghost use Rattle.spec_reader.specs.Laws.{PiecesGoOn, PiecesFollow, OneReading, OneFault, SomeAnswer, NeverBoth, ReadingsAreInForce, ReadingsKeep, ReadingsAreSmall};

/// The pieces of a script are its first piece and those of what follows it. Each stands behind the one before it, has a
/// byte, lies within the script, and begins with a byte that begins a piece.
pub fn the_pieces_of_a_script_follow_each_other()
    ensures go_on { PiecesGoOn }
    ensures follow { PiecesFollow }
{}

/// A piece reads as at most one statement.
pub fn a_piece_reads_as_one_statement()
    ensures { OneReading }
{}

/// A piece has at most one fault.
pub fn a_piece_has_one_fault()
    ensures { OneFault }
{}

/// A piece has a statement or a fault, and never both.
pub fn a_piece_has_a_statement_or_a_fault()
    ensures some { SomeAnswer }
    ensures never_both { NeverBoth }
{}

/// A statement that is read is in force, the rules in it are a specification, and its size is at most 1000.
pub fn what_is_read_keeps_the_facts_of_a_specification()
    ensures in_force { ReadingsAreInForce }
    ensures keeps { ReadingsKeep }
    ensures small { ReadingsAreSmall }
{}
