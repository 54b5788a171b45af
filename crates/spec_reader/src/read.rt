//! How the tokens of a piece are read as a statement.
ghost use Rattle.std.specs.Prelude.{◌≡◌, ◌≤◌, [], length, zip, OnOk, IfOk, IfErr, IsTrue};
ghost use Rattle.spec_syntax.specs.Rules.{is_spec};
ghost use Rattle.spec_reader.specs.TokenView.{plain};
ghost use Rattle.spec_reader.specs.Tokens.{is_spelled, tokens};
ghost use Rattle.spec_reader.specs.Drafts.{is_filled};
ghost use Rattle.spec_reader.specs.Machine.{Goes, advance, rules_from, finished, run, start, IsStop, IsAnswer, IsWithin, is_sound};

use crate::draft::Draft;
use crate::refusal::Fault;
use crate::seen::Seen;
use crate::stack::Stack;
use crate::table::{Item, expand};
use crate::token::{Placed, next_token};
use spec_syntax::{ClassRef, Expr, Form, Job, Name, RulesRef, Spec, Statement};
use std::alloc::{AllocError, Global};

/// A piece that is being read.
#[derive(Drop)]
pub(crate) struct Reader {
    /// What is expected, what comes next at the top.
    expected: Stack<Item>,
    seen: Seen,
    draft: Draft,
}

/// The rules with these names and right sides.
fn specification(
    alloc: Global,
    mut names: Stack<Name>,
    mut rights: Stack<Expr>,
) -> Result<Spec, AllocError>
    requires { IsTrue (is_spec (rules_from names rights)) }
    ensures { IfOk result (λ spec. spec ≡ rules_from names rights) }
{
    names.reverse();
    rights.reverse();
    let mut spec = Spec::new(alloc);
    while let (Some(name), Some(right)) = (names.pop(), rights.pop()) {
        spec.add(name, right)?;
    }
    Ok(spec)
}

impl Reader {
    /// A reader of a whole statement.
    fn new(alloc: Global) -> Result<Reader, AllocError>
        ensures { IfOk result (λ reader. reader ≡ start) }
    {
        let mut expected = Stack::new(alloc);
        expected.push(Item::Statement)?;
        Ok(Reader {
            expected,
            seen: Seen {
                names: Stack::new(alloc),
                expressions: 0,
            },
            draft: Draft::new(alloc),
        })
    }

    /// Takes the next token.
    ///
    /// # Errors
    ///
    /// The fault of the token, or want of memory.
    fn take(&mut self, alloc: Global, placed: &Placed<'_>) -> Result<(), Fault>
        requires sound { IsTrue (is_sound self.old) }
        requires spelled { IsTrue (is_spelled (plain placed.now.token)) }
        ensures ok { OnOk result (advance self.old (plain placed.now.token) ≡ Goes self.new) }
        ensures sound { OnOk result (IsTrue (is_sound self.new)) }
        ensures err { IfErr result (IsStop (advance self.old (plain placed.now.token)) placed.now.at) }
        ensures within { IfErr result (IsWithin placed.now.at) }
    {
        let Some(item) = self.expected.pop() else {
            return Err(Fault::Syntax(placed.at));
        };
        if !expand(item, &placed.token, &mut self.expected)? {
            return Err(Fault::Syntax(placed.at));
        }
        self.seen.admit(alloc, item.role(), &placed.token)?;
        self.draft.act(alloc, item, &placed.token)?;
        Ok(())
    }

    /// The statement that is read, where the piece ends at place `end`.
    ///
    /// # Errors
    ///
    /// The fault of an end where more is expected, or want of memory.
    fn finish(self, alloc: Global, end: usize) -> Result<Statement, Fault>
        requires { IsTrue (is_sound self) }
        ensures answer { IsAnswer (finished self.expected end self) result }
        ensures within { IfErr result (IsWithin end) }
    {
        let Reader {
            expected,
            seen,
            draft,
        } = self;
        if !expected.is_empty() {
            return Err(Fault::Syntax(end));
        }
        let quiet = draft.quiet;
        let form = match draft.command {
            None => Form::Empty,
            Some(command) => {
                let rules = RulesRef::Written(specification(alloc, seen.names, draft.rights)?);
                let class = ClassRef::Written(draft.symbol, rules, draft.universe);
                command.form(Job::Grammar(class, draft.size))
            }
        };
        Ok(Statement { form, quiet })
    }
}

/// The statement that the tokens of `piece` are read as.
///
/// # Errors
///
/// The fault of the first token at fault, or want of memory.
pub(crate) fn read_tokens(alloc: Global, piece: &[u8]) -> Result<Statement, Fault>
    ensures answer { IsAnswer (run start (length piece.now) (tokens piece.now)) result }
    ensures within { IfErr result (IsWithin (length piece.now)) }
{
    let mut reader = Reader::new(alloc)?;
    let mut at = 0;
    while let Some(placed) = next_token(piece, at) {
        reader.take(alloc, &placed)?;
        at = placed.end;
    }
    reader.finish(alloc, piece.len())
}
