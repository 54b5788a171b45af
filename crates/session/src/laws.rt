//! What holds of the effects of statements by their definition.
ghost use Rattle.session.specs.Laws.{SomeEffect, OneEffect};

/// Each statement that is in force has an effect, and only one.
pub fn each_statement_has_one_effect()
    ensures some { SomeEffect }
    ensures one { OneEffect }
{}
