//! The table of the grammar: what a token may be where something is expected, and what is expected after it.
ghost use Rattle.std.specs.Prelude.{◌≡◌, IfOk, IsTrue};
ghost use Rattle.spec_reader.specs.TokenView.{plain};
ghost use Rattle.spec_reader.specs.Tokens.{text_of};
ghost use Rattle.spec_reader.specs.Meaning.{turned, asks};
ghost use Rattle.spec_reader.specs.Table.{head_of, command_of, comparison_of, universe_of, kind_of, step, role_of, is_shallow, Takes, only_if, more_or_end, is_end, is_mark, is_reserved, is_name, is_number};
ghost use Rattle.spec_reader.specs.declared.table.Item.TheVariants.{Statement, Class, Rule, Expr, Bound};

use crate::stack::Stack;
use crate::token::{Keyword, Sign, Token};
use spec_syntax::{Form, Job, Kind, Universe};
use std::alloc::AllocError;

/// What is expected. Each item begins with one token.
#[derive(Clone, Copy, Debug)]
pub(crate) enum Item {
    /// A whole statement.
    Statement,
    /// The sign that ends a statement.
    End,
    /// A class in brackets.
    Class,
    /// The symbol of a class.
    Symbol,
    /// A comma and a universe, or a closing bracket.
    ClassEnd,
    /// A universe.
    Universe,
    /// Rules in braces.
    Rules,
    /// A rule.
    Rule,
    /// The right side of the rule for `Z`.
    RightOfZ,
    /// A comma and more rules, or a closing brace.
    MoreRules,
    /// An expression of this depth.
    Expr(u8),
    /// A comma and more expressions of this depth, or a closing parenthesis.
    MoreExprs(u8),
    /// A comma and a bound, or a closing parenthesis.
    ContainerEnd,
    /// A closing parenthesis behind a bound.
    BoundEnd,
    /// A bound.
    Bound,
    /// The comparison behind `card`.
    Comparison,
    /// The comparison in front of `card`.
    TurnedComparison,
    /// The number behind `card` and its comparison.
    CardNumber,
    /// A size.
    Size,
    /// This sign.
    Mark(Sign),
    /// This reserved word.
    Reserved(Keyword),
}

/// What a token is in a statement, as far as a limit asks.
#[derive(Clone, Copy, Debug)]
pub(crate) enum Role {
    Plain,
    /// The left side of a rule.
    RuleName,
    /// The first token of an expression of this depth.
    ExprStart(u8),
    /// The first token of a bound, which is `card` or the number.
    BoundStart,
    /// A size, or the number that ends a bound.
    SizeNumber,
}

/// What makes an expression of several.
#[derive(Clone, Copy, Debug)]
pub(crate) enum Former {
    Union,
    Prod,
}

/// What a statement asks for of a class and a size.
#[derive(Clone, Copy, Debug)]
pub(crate) enum Command {
    /// All structures.
    AllStructs,
    /// The number of structures.
    Count,
}

impl Command {
    /// What the command asks for.
    pub(crate) fn form(self, work: Job) -> Form
        ensures { result ≡ asks self work }
    {
        match self {
            Command::AllStructs => Form::List(work),
            Command::Count => Form::Count(work),
        }
    }
}

/// How an expression begins.
#[derive(Clone, Copy, Debug)]
pub(crate) enum Head {
    Epsilon,
    Atom,
    Name,
    Former(Former),
    Container(Kind),
}

/// How the number of components is compared with a number.
#[derive(Clone, Copy, Debug)]
pub(crate) enum Comparison {
    Equal,
    AtMost,
    AtLeast,
}

impl Comparison {
    /// The comparison that says the same where its sides change places.
    pub(crate) fn turned(self) -> Comparison
        ensures { result ≡ turned self }
    {
        match self {
            Comparison::Equal => Comparison::Equal,
            Comparison::AtMost => Comparison::AtLeast,
            Comparison::AtLeast => Comparison::AtMost,
        }
    }
}

impl Item {
    /// The role of the token that the item begins with.
    pub(crate) fn role(self) -> Role
        ensures { result ≡ role_of self }
    {
        match self {
            Item::Rule => Role::RuleName,
            Item::RightOfZ => Role::ExprStart(1),
            Item::Expr(depth) => Role::ExprStart(depth),
            Item::Bound => Role::BoundStart,
            Item::CardNumber | Item::Size => Role::SizeNumber,
            Item::Statement
            | Item::End
            | Item::Class
            | Item::Symbol
            | Item::ClassEnd
            | Item::Universe
            | Item::Rules
            | Item::MoreRules
            | Item::MoreExprs(_)
            | Item::ContainerEnd
            | Item::BoundEnd
            | Item::Comparison
            | Item::TurnedComparison
            | Item::Mark(_)
            | Item::Reserved(_) => Role::Plain,
        }
    }
}

impl Token<'_> {
    pub(crate) fn is_mark(&self, sign: Sign) -> bool
        ensures { result ≡ is_mark sign (plain self.now) }
    {
        match self {
            Token::Mark(other) => sign.text() == other.text(),
            _ => false,
        }
    }

    pub(crate) fn is_reserved(&self, keyword: Keyword) -> bool
        ensures { result ≡ is_reserved keyword (plain self.now) }
    {
        match self {
            Token::Reserved(other) => keyword.text() == other.text(),
            _ => false,
        }
    }

    fn is_name(&self) -> bool
        ensures { result ≡ is_name (plain self.now) }
    {
        matches!(self, Token::Name(_))
    }

    fn is_number(&self) -> bool
        ensures { result ≡ is_number (plain self.now) }
    {
        matches!(self, Token::Number(_))
    }

    /// Whether the token is a sign that ends a statement.
    fn is_end(&self) -> bool
        ensures { result ≡ is_end (plain self.now) }
    {
        self.is_mark(Sign::Semicolon) || self.is_mark(Sign::Colon)
    }

    /// The bytes of a word.
    pub(crate) fn text(&self) -> &[u8]
        ensures { result.now ≡ text_of (plain self.now) }
    {
        match self {
            Token::Reserved(keyword) => keyword.text(),
            Token::Name(text) => text,
            Token::Mark(_) | Token::Number(_) | Token::Text(_) | Token::Stray => &[],
        }
    }

    /// The command that a word names.
    pub(crate) fn command(&self) -> Option<Command>
        ensures { result ≡ command_of (plain self.now) }
    {
        if self.is_reserved(Keyword::AllStructs) {
            Some(Command::AllStructs)
        } else if self.is_reserved(Keyword::Count) {
            Some(Command::Count)
        } else {
            None
        }
    }

    /// The comparison that a sign writes.
    pub(crate) fn comparison(&self) -> Option<Comparison>
        ensures { result ≡ comparison_of (plain self.now) }
    {
        if self.is_mark(Sign::Equals) {
            Some(Comparison::Equal)
        } else if self.is_mark(Sign::AtMost) {
            Some(Comparison::AtMost)
        } else if self.is_mark(Sign::AtLeast) {
            Some(Comparison::AtLeast)
        } else {
            None
        }
    }

    /// The universe that a word names.
    pub(crate) fn universe(&self) -> Option<Universe>
        ensures { result ≡ universe_of (plain self.now) }
    {
        if self.is_reserved(Keyword::Labelled) || self.is_reserved(Keyword::Labeled) {
            Some(Universe::Labelled)
        } else if self.is_reserved(Keyword::Unlabelled) || self.is_reserved(Keyword::Unlabeled) {
            Some(Universe::Unlabelled)
        } else {
            None
        }
    }

    /// The kind of container that a word names.
    fn kind(&self) -> Option<Kind>
        ensures { result ≡ kind_of (plain self.now) }
    {
        if self.is_reserved(Keyword::Sequence) {
            Some(Kind::Sequence)
        } else if self.is_reserved(Keyword::Set) {
            Some(Kind::Set)
        } else if self.is_reserved(Keyword::PowerSet) {
            Some(Kind::PowerSet)
        } else if self.is_reserved(Keyword::Cycle) {
            Some(Kind::Cycle)
        } else {
            None
        }
    }

    /// How an expression begins with the token.
    pub(crate) fn head(&self) -> Option<Head>
        ensures { result ≡ head_of (plain self.now) }
    {
        if self.is_reserved(Keyword::Epsilon) {
            Some(Head::Epsilon)
        } else if self.is_reserved(Keyword::Atom) || self.is_reserved(Keyword::Z) {
            Some(Head::Atom)
        } else if self.is_name() {
            Some(Head::Name)
        } else if self.is_reserved(Keyword::Union) {
            Some(Head::Former(Former::Union))
        } else if self.is_reserved(Keyword::Prod) {
            Some(Head::Former(Former::Prod))
        } else {
            self.kind().map(Head::Container)
        }
    }
}

/// Puts the row on the stack where the token fits, and answers whether it does.
fn only_if(fits: bool, row: &[Item], stack: &mut Stack<Item>) -> Result<bool, AllocError>
    ensures { IfOk result (λ taken. Takes (only_if fits row.now) taken stack.old stack.new) }
{
    if fits {
        stack.push_all(row)?;
    }
    Ok(fits)
}

/// Puts the row on the stack where the token is a comma, and answers whether it is one or the sign that closes.
fn more_or_end(
    close: Sign,
    token: &Token<'_>,
    row: &[Item],
    stack: &mut Stack<Item>,
) -> Result<bool, AllocError>
    ensures { IfOk result (λ fits. Takes (more_or_end close (plain token.now) row.now) fits stack.old stack.new) }
{
    if token.is_mark(Sign::Comma) {
        stack.push_all(row)?;
        return Ok(true);
    }
    Ok(token.is_mark(close))
}

/// Takes the token as the beginning of a statement.
fn expand_statement(token: &Token<'_>, stack: &mut Stack<Item>) -> Result<bool, AllocError>
    ensures { IfOk result (λ fits. Takes (step Statement (plain token.now)) fits stack.old stack.new) }
{
    if token.is_end() {
        return Ok(true);
    }
    let row = [
        Item::Mark(Sign::OpenParen),
        Item::Class,
        Item::Mark(Sign::Comma),
        Item::Reserved(Keyword::Size),
        Item::Mark(Sign::Equals),
        Item::Size,
        Item::Mark(Sign::CloseParen),
        Item::End,
    ];
    only_if(token.command().is_some(), &row, stack)
}

/// Takes the token as the beginning of a class.
fn expand_class(token: &Token<'_>, stack: &mut Stack<Item>) -> Result<bool, AllocError>
    ensures { IfOk result (λ fits. Takes (step Class (plain token.now)) fits stack.old stack.new) }
{
    let row = [
        Item::Symbol,
        Item::Mark(Sign::Comma),
        Item::Rules,
        Item::ClassEnd,
    ];
    only_if(token.is_mark(Sign::OpenBracket), &row, stack)
}

/// Takes the token as the left side of a rule.
fn expand_rule(token: &Token<'_>, stack: &mut Stack<Item>) -> Result<bool, AllocError>
    ensures { IfOk result (λ fits. Takes (step Rule (plain token.now)) fits stack.old stack.new) }
{
    if token.is_name() {
        stack.push_all(&[Item::Mark(Sign::Equals), Item::Expr(1)])?;
        return Ok(true);
    }
    let row = [Item::Mark(Sign::Equals), Item::RightOfZ];
    only_if(token.is_reserved(Keyword::Z), &row, stack)
}

/// Takes the token as the beginning of an expression of this depth.
fn expand_expr(depth: u8, token: &Token<'_>, stack: &mut Stack<Item>) -> Result<bool, AllocError>
    requires { IsTrue (is_shallow (Expr depth)) }
    ensures { IfOk result (λ fits. Takes (step (Expr depth) (plain token.now)) fits stack.old stack.new) }
{
    let end = match token.head() {
        None => return Ok(false),
        Some(Head::Epsilon | Head::Atom | Head::Name) => return Ok(true),
        Some(Head::Former(_)) => Item::MoreExprs(depth + 1),
        Some(Head::Container(_)) => Item::ContainerEnd,
    };
    stack.push_all(&[Item::Mark(Sign::OpenParen), Item::Expr(depth + 1), end])?;
    Ok(true)
}

/// Takes the token as the beginning of a bound.
fn expand_bound(token: &Token<'_>, stack: &mut Stack<Item>) -> Result<bool, AllocError>
    ensures { IfOk result (λ fits. Takes (step Bound (plain token.now)) fits stack.old stack.new) }
{
    if token.is_reserved(Keyword::Card) {
        stack.push_all(&[Item::Comparison, Item::CardNumber])?;
        return Ok(true);
    }
    let row = [Item::TurnedComparison, Item::Reserved(Keyword::Card)];
    only_if(token.is_number(), &row, stack)
}

/// Takes the token as the item that is expected: puts what is expected after it on the stack, and answers whether it
/// fits. Where it doesn't, the stack is as before.
pub(crate) fn expand(
    item: Item,
    token: &Token<'_>,
    stack: &mut Stack<Item>,
) -> Result<bool, AllocError>
    requires { IsTrue (is_shallow item) }
    ensures { IfOk result (λ fits. Takes (step item (plain token.now)) fits stack.old stack.new) }
{
    match item {
        Item::Statement => expand_statement(token, stack),
        Item::End => Ok(token.is_end()),
        Item::Class => expand_class(token, stack),
        Item::Symbol => Ok(token.is_name() || token.is_reserved(Keyword::Z)),
        Item::ClassEnd => {
            let row = [Item::Universe, Item::Mark(Sign::CloseBracket)];
            more_or_end(Sign::CloseBracket, token, &row, stack)
        }
        Item::Universe => Ok(token.universe().is_some()),
        Item::Rules => {
            let row = [Item::Rule, Item::MoreRules];
            only_if(token.is_mark(Sign::OpenBrace), &row, stack)
        }
        Item::Rule => expand_rule(token, stack),
        Item::RightOfZ => Ok(token.is_reserved(Keyword::Z) || token.is_reserved(Keyword::Atom)),
        Item::MoreRules => {
            let row = [Item::Rule, Item::MoreRules];
            more_or_end(Sign::CloseBrace, token, &row, stack)
        }
        Item::Expr(depth) => expand_expr(depth, token, stack),
        Item::MoreExprs(depth) => {
            let row = [Item::Expr(depth), Item::MoreExprs(depth)];
            more_or_end(Sign::CloseParen, token, &row, stack)
        }
        Item::ContainerEnd => {
            let row = [Item::Bound, Item::BoundEnd];
            more_or_end(Sign::CloseParen, token, &row, stack)
        }
        Item::BoundEnd => Ok(token.is_mark(Sign::CloseParen)),
        Item::Bound => expand_bound(token, stack),
        Item::Comparison | Item::TurnedComparison => Ok(token.comparison().is_some()),
        Item::CardNumber | Item::Size => Ok(token.is_number()),
        Item::Mark(sign) => Ok(token.is_mark(sign)),
        Item::Reserved(keyword) => Ok(token.is_reserved(keyword)),
    }
}
