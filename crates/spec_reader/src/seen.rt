//! What came before a token, as far as limits and repeated names ask.
ghost use Rattle.std.specs.Prelude.{◌≡◌, None, length, reverse, OnOk, IfErr, IsTrue};
ghost use Rattle.spec_reader.specs.TokenView.{plain};
ghost use Rattle.spec_reader.specs.Tokens.{is_spelled};
ghost use Rattle.spec_reader.specs.Seen.{reason_in, seen_after, IsFaultFor};
ghost use Rattle.spec_reader.specs.Limits.{limit, repeats, is_long, is_above};

use crate::refusal::{Fault, Which};
use crate::stack::Stack;
use crate::table::Role;
use crate::token::{Token, number};
use spec_syntax::Name;
use std::alloc::Global;

/// The longest word that is read, in bytes.
const NAME_MAX: usize = 32;

/// The largest size, and the largest number of a bound.
const SIZE_MAX: u128 = 1000;

/// The most rules of a specification.
const RULES_MAX: usize = 64;

/// The most expressions of a specification.
const NODES_MAX: u32 = 128;

/// The greatest depth of an expression.
const DEPTH_MAX: u8 = 32;

/// The names of the rules so far, the last at the top, and the number of expressions so far.
#[derive(Drop)]
pub(crate) struct Seen {
    pub(crate) names: Stack<Name>,
    pub(crate) expressions: u32,
}

/// Whether the token is a word that is too long.
fn is_long(token: &Token<'_>) -> bool
    ensures { result ≡ is_long (plain token.now) }
{
    match token {
        Token::Name(text) => text.len() > NAME_MAX,
        Token::Mark(_) | Token::Reserved(_) | Token::Number(_) | Token::Text(_) | Token::Stray =>
            false,
    }
}

/// Whether the token is a number above `max`.
fn is_above(max: u128, token: &Token<'_>) -> bool
    requires { IsTrue (is_spelled (plain token.now)) }
    ensures { result ≡ is_above max (plain token.now) }
{
    match token {
        Token::Number(digits) => match number(digits) {
            Some(n) => n > max,
            None => true,
        },
        Token::Mark(_) | Token::Reserved(_) | Token::Name(_) | Token::Text(_) | Token::Stray =>
            false,
    }
}

impl Seen {
    /// The first limit that the token passes.
    fn limit(&self, role: Role, token: &Token<'_>) -> Option<Which>
        requires { IsTrue (is_spelled (plain token.now)) }
        ensures { result ≡ limit (length self.now.names) self.now.expressions role (plain token.now) }
    {
        if is_long(token) {
            return Some(Which::Name);
        }
        if is_above(u128::MAX, token) {
            return Some(Which::Number);
        }
        match role {
            Role::SizeNumber | Role::BoundStart if is_above(SIZE_MAX, token) => Some(Which::Size),
            Role::RuleName if self.names.len() >= RULES_MAX => Some(Which::Rules),
            Role::ExprStart(_) if self.expressions >= NODES_MAX => Some(Which::Nodes),
            Role::ExprStart(depth) if depth > DEPTH_MAX => Some(Which::Depth),
            Role::SizeNumber
            | Role::BoundStart
            | Role::RuleName
            | Role::ExprStart(_)
            | Role::Plain => None,
        }
    }

    /// Whether a rule of this name came before.
    fn repeats(&self, text: &[u8]) -> bool
        ensures { result ≡ repeats (reverse self.now.names) text.now }
    {
        self.names
            .as_slice()
            .iter()
            .any(|name| name.as_slice() == text)
    }

    /// Tests a token in its role, and takes note of it.
    ///
    /// # Errors
    ///
    /// The limit that the token passes, the name that it repeats, or want of memory.
    pub(crate) fn admit(
        &mut self,
        alloc: Global,
        role: Role,
        token: &Token<'_>,
    ) -> Result<(), Fault>
        requires { IsTrue (is_spelled (plain token.now)) }
        ensures passes { OnOk result (reason_in self.old role (plain token.now) ≡ None) }
        ensures after { OnOk result (self.new ≡ seen_after role (plain token.now) self.old) }
        ensures err { IfErr result (IsFaultFor (reason_in self.old role (plain token.now))) }
    {
        if let Some(which) = self.limit(role, token) {
            return Err(Fault::Limit(which));
        }
        match role {
            Role::RuleName => {
                let name = Name::from_slice(alloc, token.text())?;
                if self.repeats(name.as_slice()) {
                    return Err(Fault::DuplicateRule(name));
                }
                self.names.push(name)?;
            }
            Role::ExprStart(_) => self.expressions += 1,
            Role::BoundStart | Role::SizeNumber | Role::Plain => {}
        }
        Ok(())
    }
}
