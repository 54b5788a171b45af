//! Tagged texts, read back.
ghost use Rattle.std.specs.Prelude.{◌≡◌, ◌<◌, ◌≤◌, ◌^◌, IfOk, IfErr, IsTrue, length};
ghost use Rattle.spec_syntax.specs.Expression.{Name as NameOf};
ghost use Rattle.spec_syntax.specs.Rules.{rule_name};
ghost use Rattle.struct_model.specs.Structure.{Structure};
ghost use Rattle.struct_model.specs.Membership.{is_of};
ghost use Rattle.well_founded.specs.Checked.{grammar as grammar_of};
ghost use Rattle.struct_text.specs.Text.{tagged};
ghost use Rattle.struct_text.specs.Labels.{are_small};

use crate::entering::{enter, enter_rule};
use crate::holes::Place;
use crate::leaving::leave;
use crate::lexing::Left;
use crate::stack::Stack;
use canon::is_of_rule;
use std::alloc::{AllocError, Global};
use struct_model::Struct;
use well_founded::Grammar;

/// Why a text isn't read.
#[derive(Clone, Copy, PartialEq, Eq, Debug)]
pub enum TextFault {
    /// It is the tagged text of no structure.
    NotStructure,
    /// Memory is wanting.
    Memory,
}

impl From<AllocError> for TextFault {
    ghost use Rattle.std.specs.Prelude.{◌≡◌};
    ghost use Rattle.struct_text.specs.declared.reading.TextFault.TheVariants.{Memory};

    ghost from_gives = { λ _ fault. fault ≡ Memory };

    fn from(_: AllocError) -> TextFault {
        TextFault::Memory
    }
}

/// The structure of rule number `sym`, counted from 1, that has this tagged text. There is no more than one.
///
/// # Errors
///
/// `NotStructure` where no structure of the rule with labels of at most 2^32 - 1 has this text. Memory may be wanting.
pub fn read_tagged(
    alloc: Global,
    grammar: &Grammar,
    sym: u32,
    text: &[u8],
) -> Result<Struct, TextFault>
    requires low { 1 ≤ sym }
    requires high { sym ≤ length grammar.now.rules }
    requires short { length text.now < 2 ^ 32 }
    ensures structure { IfOk result (λ s. IsTrue (is_of (grammar_of grammar.now) (NameOf (rule_name grammar.now.rules sym)) s)) }
    ensures text { IfOk result (λ s. tagged grammar.now.rules s ≡ text.now) }
    ensures none { IfErr result (λ fault. fault ≡ TextFault.NotStructure → (s : Structure) → IsTrue (is_of (grammar_of grammar.now) (NameOf (rule_name grammar.now.rules sym)) s)
        → IsTrue (are_small s) → tagged grammar.now.rules s ≡ text.now → ⊥) }
{
    let mut holes = Stack::new(alloc);
    let mut left = Left::of(text);
    let mut place = enter_rule(grammar, sym, &mut holes, &mut left)?;
    loop {
        match place {
            Place::Before(node) => {
                place = enter(alloc, grammar, node, &mut holes, &mut left)?;
            }
            Place::Behind(s) => match holes.pop() {
                Some(hole) => {
                    place = leave(alloc, grammar, hole, s, &mut holes, &mut left)?;
                }
                None => {
                    if left.is_empty() && is_of_rule(grammar, sym, &s) {
                        return Ok(s);
                    }
                    return Err(TextFault::NotStructure);
                }
            },
        }
    }
}
