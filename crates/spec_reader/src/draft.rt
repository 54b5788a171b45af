//! What is built of a statement while its tokens are read.
ghost use Rattle.std.specs.Prelude.{◌≡◌, OnOk, IsTrue, false, true};
ghost use Rattle.spec_reader.specs.TokenView.{plain};
ghost use Rattle.spec_reader.specs.Tokens.{is_spelled};
ghost use Rattle.spec_reader.specs.Limits.{is_size, is_above};
ghost use Rattle.spec_reader.specs.Meaning.{card_by};
ghost use Rattle.spec_reader.specs.Table.{role_of, head_of};
ghost use Rattle.spec_reader.specs.Drafts.{unbounded, number_in, put, close, with_part, rebind, act, begin_at, empty};

use crate::stack::Stack;
use crate::table::{Command, Comparison, Former, Head, Item};
use crate::token::{Sign, Token, number};
use spec_syntax::{Card, Expr, ExprShape, Exprs, Kind, Name, Universe};
use std::alloc::{AllocError, Global};

/// A bound on the number of components: how that is compared with a number, which is at most 1000.
#[derive(Clone, Copy, Debug)]
pub(crate) struct Bound {
    pub(crate) comparison: Comparison,
    pub(crate) number: u32,
}

/// A part of a bound.
#[derive(Clone, Copy, Debug)]
pub(crate) enum BoundPart {
    /// How the number of components is compared.
    Comparison(Comparison),
    /// The number that it is compared with.
    Number(u32),
}

impl Bound {
    /// The bound with this part in place of its own.
    fn with(self, part: BoundPart) -> Bound
        ensures { result ≡ with_part part self }
    {
        match part {
            BoundPart::Comparison(comparison) => Bound {
                comparison,
                number: self.number,
            },
            BoundPart::Number(number) => Bound {
                comparison: self.comparison,
                number,
            },
        }
    }

    /// The bound that every number of components keeps.
    fn none() -> Bound
        ensures { result ≡ unbounded }
    {
        Bound {
            comparison: Comparison::AtLeast,
            number: 0,
        }
    }

    /// The least and the greatest number of components.
    fn card(self) -> Card
        ensures { result ≡ card_by self.comparison self.number }
    {
        match self.comparison {
            Comparison::Equal => Card {
                low: self.number,
                high: Some(self.number),
            },
            Comparison::AtMost => Card {
                low: 0,
                high: Some(self.number),
            },
            Comparison::AtLeast => Card {
                low: self.number,
                high: None,
            },
        }
    }
}

/// An expression whose arguments are being read.
#[derive(Drop)]
pub(crate) enum Compound {
    /// A Union or a Prod, with its arguments so far.
    Several(Former, Exprs),
    /// A container, with its element where that is whole, and its bound so far.
    Container(Kind, Option<Expr>, Bound),
}

/// What is built of a statement so far.
#[derive(Drop)]
pub(crate) struct Draft {
    pub(crate) command: Option<Command>,
    /// The symbol of the class.
    pub(crate) symbol: Name,
    /// The universe of the class, unlabelled where none is written.
    pub(crate) universe: Universe,
    /// The right sides that are whole, the last at the top.
    pub(crate) rights: Stack<Expr>,
    /// The expressions that aren't whole, the innermost at the top.
    pub(crate) pending: Stack<Compound>,
    pub(crate) size: u32,
    /// Whether the statement ends with a colon.
    pub(crate) quiet: bool,
}

/// The number that a token writes.
fn number_in(token: &Token<'_>) -> Option<u32>
    requires spelled { IsTrue (is_spelled (plain token.now)) }
    requires small { is_above 1000 (plain token.now) ≡ false }
    ensures { result ≡ number_in (plain token.now) }
{
    match token {
        Token::Number(digits) => number(digits).map(|n| n as u32),
        Token::Mark(_) | Token::Reserved(_) | Token::Name(_) | Token::Text(_) | Token::Stray =>
            None,
    }
}

impl Draft {
    /// Nothing is built yet. It takes no memory.
    pub(crate) fn new(alloc: Global) -> Draft
        ensures { result ≡ empty }
    {
        Draft {
            command: None,
            symbol: Name::new(alloc),
            universe: Universe::Unlabelled,
            rights: Stack::new(alloc),
            pending: Stack::new(alloc),
            size: 0,
            quiet: false,
        }
    }

    /// A whole expression is an argument of the innermost one that is not, and where all are it is a right side.
    fn put(&mut self, expr: Expr) -> Result<(), AllocError>
        ensures { OnOk result (self.new ≡ put expr self.old) }
    {
        match self.pending.pop() {
            None => self.rights.push(expr),
            Some(Compound::Several(former, mut arguments)) => {
                arguments.push(expr)?;
                self.pending.push(Compound::Several(former, arguments))
            }
            Some(Compound::Container(kind, _, bound)) => {
                let container = Compound::Container(kind, Some(expr), bound);
                self.pending.push(container)
            }
        }
    }

    /// The innermost expression that is not whole becomes whole.
    fn close(&mut self, alloc: Global) -> Result<(), AllocError>
        ensures { OnOk result (self.new ≡ close self.old) }
    {
        let shape = match self.pending.pop() {
            None => return Ok(()),
            Some(Compound::Several(Former::Union, arguments)) => ExprShape::Union(arguments),
            Some(Compound::Several(Former::Prod, arguments)) => ExprShape::Prod(arguments),
            Some(Compound::Container(kind, element, bound)) => {
                let Some(element) = element else {
                    return Ok(());
                };
                ExprShape::Many(kind, Box::new(alloc, element)?, bound.card())
            }
        };
        self.put(Expr { shape })
    }

    /// The bound of the innermost expression that is not whole, where it is a container, has this part.
    fn rebind(&mut self, part: BoundPart) -> Result<(), AllocError>
        ensures { OnOk result (self.new ≡ rebind part self.old) }
    {
        match self.pending.pop() {
            None => Ok(()),
            Some(Compound::Several(former, arguments)) => {
                self.pending.push(Compound::Several(former, arguments))
            }
            Some(Compound::Container(kind, element, bound)) => {
                let container = Compound::Container(kind, element, bound.with(part));
                self.pending.push(container)
            }
        }
    }

    /// Builds with a token that the item takes.
    pub(crate) fn act(
        &mut self,
        alloc: Global,
        item: Item,
        token: &Token<'_>,
    ) -> Result<(), AllocError>
        requires spelled { IsTrue (is_spelled (plain token.now)) }
        requires small { is_size (role_of item) ≡ true → is_above 1000 (plain token.now) ≡ false }
        ensures { OnOk result (self.new ≡ act item (plain token.now) self.old) }
    {
        match item {
            Item::Statement => match token.command() {
                Some(command) => self.command = Some(command),
                None => self.quiet = token.is_mark(Sign::Colon),
            },
            Item::End => self.quiet = token.is_mark(Sign::Colon),
            Item::Symbol => self.symbol = Name::from_slice(alloc, token.text())?,
            Item::Universe => {
                if let Some(universe) = token.universe() {
                    self.universe = universe;
                }
            }
            Item::RightOfZ => self.put(Expr {
                shape: ExprShape::Atom,
            })?,
            Item::Expr(_) => self.begin(alloc, token)?,
            Item::MoreExprs(_) | Item::ContainerEnd | Item::BoundEnd => {
                if token.is_mark(Sign::CloseParen) {
                    self.close(alloc)?;
                }
            }
            Item::Bound | Item::CardNumber => {
                if let Some(number) = number_in(token) {
                    self.rebind(BoundPart::Number(number))?;
                }
            }
            Item::Comparison => {
                if let Some(comparison) = token.comparison() {
                    self.rebind(BoundPart::Comparison(comparison))?;
                }
            }
            Item::TurnedComparison => {
                if let Some(comparison) = token.comparison() {
                    self.rebind(BoundPart::Comparison(comparison.turned()))?;
                }
            }
            Item::Size => {
                if let Some(size) = number_in(token) {
                    self.size = size;
                }
            }
            Item::Class
            | Item::ClassEnd
            | Item::Rules
            | Item::Rule
            | Item::MoreRules
            | Item::Mark(_)
            | Item::Reserved(_) => {}
        }
        Ok(())
    }

    /// An expression begins with the token.
    fn begin(&mut self, alloc: Global, token: &Token<'_>) -> Result<(), AllocError>
        ensures { OnOk result (self.new ≡ begin_at (plain token.now) (head_of (plain token.now)) self.old) }
    {
        let shape = match token.head() {
            None => return Ok(()),
            Some(Head::Epsilon) => ExprShape::Epsilon,
            Some(Head::Atom) => ExprShape::Atom,
            Some(Head::Name) => ExprShape::Name(Name::from_slice(alloc, token.text())?),
            Some(Head::Former(former)) => {
                let arguments = Exprs::new(alloc);
                return self.pending.push(Compound::Several(former, arguments));
            }
            Some(Head::Container(kind)) => {
                let container = Compound::Container(kind, None, Bound::none());
                return self.pending.push(container);
            }
        };
        self.put(Expr { shape })
    }
}
