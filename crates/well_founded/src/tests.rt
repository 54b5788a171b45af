//! Tests of the check on small grammars.
ghost use Rattle.std.specs.Prelude.{◌≡◌, Some, None, [], ◌∷◌, ◌<◌, length, IfOk, IsTrue};
ghost use Rattle.spec_syntax.specs.Rules.{is_spec, all_nodes};
ghost use Rattle.spec_syntax.specs.Card.{is_writable};
ghost use Rattle.spec_syntax.specs.Expression.{Epsilon as EpsilonOf, Atom as AtomOf, Name as NameOf, Union as UnionOf, Prod as ProdOf, Many as ManyOf, more_expressions, no_expressions};

use crate::{Grammar, NodeKind, Refused, check, each_grammar_has_one_check};
use spec_syntax::{Card, Expr, ExprShape, Exprs, Kind, Name, Spec, Universe};
use std::alloc::{AllocError, Global};
use std::test::Fail;

/// Epsilon.
fn empty() -> Expr
    ensures { result ≡ EpsilonOf }
{
    Expr {
        shape: ExprShape::Epsilon,
    }
}

/// Z.
fn atom() -> Expr
    ensures { result ≡ AtomOf }
{
    Expr {
        shape: ExprShape::Atom,
    }
}

/// The rule with this name.
fn named(alloc: Global, name: &[u8]) -> Result<Expr, AllocError>
    ensures { IfOk result (λ expr. expr ≡ NameOf name.now) }
{
    Ok(Expr {
        shape: ExprShape::Name(Name::from_slice(alloc, name)?),
    })
}

/// A structure of one or of the other.
fn union_of(alloc: Global, one: Expr, other: Expr) -> Result<Expr, AllocError>
    ensures { IfOk result (λ expr. expr ≡ UnionOf (more_expressions one (more_expressions other no_expressions))) }
{
    let mut arguments = Exprs::new(alloc);
    arguments.push(one)?;
    arguments.push(other)?;
    Ok(Expr {
        shape: ExprShape::Union(arguments),
    })
}

/// A structure of the one and one of the other.
fn prod_of(alloc: Global, one: Expr, other: Expr) -> Result<Expr, AllocError>
    ensures { IfOk result (λ expr. expr ≡ ProdOf (more_expressions one (more_expressions other no_expressions))) }
{
    let mut arguments = Exprs::new(alloc);
    arguments.push(one)?;
    arguments.push(other)?;
    Ok(Expr {
        shape: ExprShape::Prod(arguments),
    })
}

/// A container of structures of the element, so many as the bound admits.
fn many_of(alloc: Global, kind: Kind, element: Expr, card: Card) -> Result<Expr, AllocError>
    ensures { IfOk result (λ expr. expr ≡ ManyOf kind element card) }
{
    Ok(Expr {
        shape: ExprShape::Many(kind, Box::new(alloc, element)?, card),
    })
}

/// The bound that admits any number.
const ANY: Card = Card { low: 0, high: None };

/// The bound that admits this number alone.
const fn exactly(k: u32) -> Card
    ensures { result ≡ record { low = k; high = Some k } }
{
    Card {
        low: k,
        high: Some(k),
    }
}

/// The grammar of this rule alone.
fn of_rule(alloc: Global, name: &[u8], right: Expr) -> Result<Spec, AllocError>
    requires { IsTrue (is_spec ((name.now, right) ∷ [])) }
    ensures { IfOk result (λ spec. spec ≡ (name.now, right) ∷ []) }
{
    let mut spec = Spec::new(alloc);
    spec.add(Name::from_slice(alloc, name)?, right)?;
    Ok(spec)
}

/// What the check says, the letter of the name that it tells, and the least size.
fn told(answer: Result<Grammar, Refused>) -> (&'static str, u8, u32) {
    match answer {
        Ok(_) => ("passes", 0, 0),
        Err(Refused::Undefined(name)) => ("undefined", letter(&name), 0),
        Err(Refused::CycleUnlabelled(name)) => ("cycle", letter(&name), 0),
        Err(Refused::Unproductive(name)) => ("unproductive", letter(&name), 0),
        Err(Refused::NullElement(name)) => ("null", letter(&name), 0),
        Err(Refused::Endless(name, size)) => ("endless", letter(&name), size),
        Err(Refused::Memory) => ("memory", 0, 0),
    }
}

/// The first letter of a name.
fn letter(name: &Name) -> u8 {
    name.as_slice().first().copied().unwrap_or(0)
}

/// `T = Union(Z, T)`.
fn union_over_itself(alloc: Global) -> Result<Spec, AllocError> {
    of_rule(alloc, b"T", union_of(alloc, atom(), named(alloc, b"T")?)?)
}

/// `T = Prod(Z, T)`.
fn without_end(alloc: Global) -> Result<Spec, AllocError> {
    of_rule(alloc, b"T", prod_of(alloc, atom(), named(alloc, b"T")?)?)
}

/// `S = Sequence(Union(Z, Epsilon))`.
fn words_of_maybe(alloc: Global) -> Result<Spec, AllocError> {
    let maybe = union_of(alloc, atom(), empty())?;
    of_rule(alloc, b"S", many_of(alloc, Kind::Sequence, maybe, ANY)?)
}

/// `T = Union(Z, S)`, where `S` is this container of structures of `T`.
fn or_over_itself(alloc: Global, kind: Kind, card: Card) -> Result<Spec, AllocError>
    requires { IsTrue (is_writable card) }
{
    let over = many_of(alloc, kind, named(alloc, b"T")?, card)?;
    of_rule(alloc, b"T", union_of(alloc, atom(), over)?)
}

/// `S = Cycle(Z)`.
fn rounds(alloc: Global) -> Result<Spec, AllocError> {
    of_rule(alloc, b"S", many_of(alloc, Kind::Cycle, atom(), ANY)?)
}

/// What the check of an unlabelled grammar without a class symbol says.
fn says(alloc: Global, spec: &Spec) -> (&'static str, u8, u32) {
    told(check(alloc, spec, None, Universe::Unlabelled))
}

#[test]
fn grammars_that_are_refused(rt: HostRuntime) -> Result<(), Fail> {
    let alloc = rt.alloc();
    let spec = union_over_itself(alloc)?;
    let other = Name::from_slice(alloc, b"U")?;
    let undefined = told(check(alloc, &spec, Some(&other), Universe::Unlabelled));
    assert!(rt; undefined == ("undefined", b'U', 0));
    assert!(rt; says(alloc, &spec) == ("endless", b'T', 1));
    assert!(rt; says(alloc, &without_end(alloc)?) == ("unproductive", b'T', 0));
    Ok(())
}

#[test]
fn containers_that_are_refused(rt: HostRuntime) -> Result<(), Fail> {
    let alloc = rt.alloc();
    assert!(rt; says(alloc, &words_of_maybe(alloc)?) == ("null", b'S', 0));
    assert!(rt; says(alloc, &rounds(alloc)?) == ("cycle", b'S', 0));
    let spec = or_over_itself(alloc, Kind::Sequence, exactly(1))?;
    assert!(rt; says(alloc, &spec) == ("endless", b'T', 1));
    Ok(())
}

/// `T = Prod(Z, Sequence(T)), S = Union(Cycle(T), Set(T, card = 3))`.
fn trees(alloc: Global) -> Result<Spec, AllocError> {
    let branches = many_of(alloc, Kind::Sequence, named(alloc, b"T")?, ANY)?;
    let mut spec = of_rule(alloc, b"T", prod_of(alloc, atom(), branches)?)?;
    let round = many_of(alloc, Kind::Cycle, named(alloc, b"T")?, ANY)?;
    let three = many_of(alloc, Kind::Set, named(alloc, b"T")?, exactly(3))?;
    let right = union_of(alloc, round, three)?;
    spec.add(Name::from_slice(alloc, b"S")?, right)?;
    Ok(spec)
}

/// What the nodes are.
fn kinds(alloc: Global, grammar: &Grammar) -> Result<Vec<NodeKind>, AllocError> {
    let mut kinds = Vec::new(alloc);
    for node in 0..grammar.nodes() {
        kinds.push(grammar.kind(node))?;
    }
    Ok(kinds)
}

/// For each node its least size and its rank.
fn measures(alloc: Global, grammar: &Grammar) -> Result<Vec<(u32, u32)>, AllocError> {
    let mut measures = Vec::new(alloc);
    for node in 0..grammar.nodes() {
        measures.push((grammar.least(node), grammar.rank(node)))?;
    }
    Ok(measures)
}

/// Puts the nodes directly inside the node at the end.
fn push_children(grammar: &Grammar, node: u32, inside: &mut Vec<u32>) -> Result<(), AllocError>
    requires { node < length (all_nodes grammar.now.rules) }
{
    for i in 0..grammar.children(node) {
        inside.push(grammar.child(node, i + 1))?;
    }
    Ok(())
}

/// The nodes directly inside each node, or the number of the rule that it names.
fn insides(alloc: Global, grammar: &Grammar) -> Result<Vec<u32>, AllocError> {
    let mut inside = Vec::new(alloc);
    for node in 0..grammar.nodes() {
        if grammar.kind(node) == NodeKind::Rule {
            inside.push(grammar.sym(node))?;
        }
        push_children(grammar, node, &mut inside)?;
    }
    Ok(inside)
}

/// The nodes of the rules.
fn rule_nodes(alloc: Global, grammar: &Grammar) -> Result<Vec<u32>, AllocError> {
    let mut nodes = Vec::new(alloc);
    for place in 0..grammar.spec().rules() {
        nodes.push(grammar.rule_node(place + 1))?;
    }
    Ok(nodes)
}

/// The bounds of the containers.
fn cards(alloc: Global, grammar: &Grammar) -> Result<Vec<Card>, AllocError> {
    let mut cards = Vec::new(alloc);
    for node in 0..grammar.nodes() {
        match grammar.kind(node) {
            NodeKind::Sequence | NodeKind::Set | NodeKind::PowerSet | NodeKind::Cycle => {
                cards.push(grammar.card(node))?
            }
            NodeKind::Epsilon
            | NodeKind::Atom
            | NodeKind::Rule
            | NodeKind::Union
            | NodeKind::Prod => {}
        }
    }
    Ok(cards)
}

#[test]
fn a_grammar_that_passes(rt: HostRuntime) -> Result<(), Fail> {
    let alloc = rt.alloc();
    let start = Name::from_slice(alloc, b"S")?;
    let Ok(grammar) = check(alloc, &trees(alloc)?, Some(&start), Universe::Labelled) else {
        panic!(rt; "it is refused");
    };
    assert!(rt; grammar.universe() == Universe::Labelled);
    assert_eq!(rt; grammar.start(), Some(2));
    assert!(rt; rule_nodes(alloc, &grammar)?.as_slice() == [0, 4].as_slice());
    let expected = [
        NodeKind::Prod,
        NodeKind::Atom,
        NodeKind::Sequence,
        NodeKind::Rule,
        NodeKind::Union,
        NodeKind::Cycle,
        NodeKind::Rule,
        NodeKind::Set,
        NodeKind::Rule,
    ];
    assert!(rt; kinds(alloc, &grammar)?.as_slice() == expected.as_slice());
    assert!(rt; insides(alloc, &grammar)?.as_slice() == [1, 2, 3, 1, 5, 7, 6, 1, 8, 1].as_slice());
    assert!(rt; cards(alloc, &grammar)?.as_slice() == [ANY, ANY, exactly(3)].as_slice());
    let expected = [
        (1, 1),
        (1, 0),
        (0, 3),
        (1, 2),
        (1, 5),
        (1, 3),
        (1, 2),
        (3, 0),
        (1, 2),
    ];
    assert!(rt; measures(alloc, &grammar)?.as_slice() == expected.as_slice());
    Ok(())
}

#[test]
fn the_law(_rt: HostRuntime) -> Result<(), Fail> {
    each_grammar_has_one_check();
    Ok(())
}
