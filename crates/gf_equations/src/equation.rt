//! The equations of rules.
ghost use Rattle.std.specs.Prelude.{◌≡◌, ◌+◌, ◌≤◌, ◌++◌, [], if◌then◌else◌, nat_eq, None, Some, codes, length, IfOk, IfErr, IfSome, OnOk};
ghost use Rattle.std.specs.List.{list_all};
ghost use Rattle.spec_syntax.specs.Expression.{nodes, nodes_of_all, preorder_of_all, expressions_of};
ghost use Rattle.well_founded.specs.Checked.{grammar as rules_of};
ghost use Rattle.gf_equations.specs.Bounds.{is_no_bounded_set, is_without_bounded_set, first_bounded_set, rule_without_equation, Blames, TellsRule};
ghost use Rattle.gf_equations.specs.Text.{term, terms, equation, equations};

use crate::GfFault;
use crate::bound::Bound;
use crate::container::{container, element_depth};
use crate::term::{Term, argument, call, product_of, sum_of};
use spec_syntax::{Bytes, Expr, ExprShape, Kind, Name, Spec, Universe};
use std::alloc::{AllocError, Global};
use well_founded::Grammar;

/// Whether no Set and no PowerSet with a bound stands in the expression.
#[cycle(bounds)]
fn is_without_bounded_set(expr: &Expr) -> bool
    ensures { result ≡ is_without_bounded_set expr.now }
{
    match &expr.shape {
        ExprShape::Epsilon | ExprShape::Atom | ExprShape::Name(_) => true,
        ExprShape::Union(arguments) => are_without_bounded_set(arguments.as_slice()),
        ExprShape::Prod(arguments) => are_without_bounded_set(arguments.as_slice()),
        ExprShape::Many(Kind::Sequence | Kind::Cycle, element, _) => {
            is_without_bounded_set(element)
        }
        ExprShape::Many(Kind::Set | Kind::PowerSet, element, card) => {
            Bound::of(*card).is_any() && is_without_bounded_set(element)
        }
    }
}

/// Whether none stands in the expressions.
#[cycle(bounds)]
#[tactic(auto, using(well_founded::proofs::ContainerSteps::all_step, spec_syntax::proofs::NodeSteps::nodes_of_one))]
fn are_without_bounded_set(exprs: &[Expr]) -> bool
    ensures { result ≡ list_all is_no_bounded_set (preorder_of_all (expressions_of exprs.now)) }
{
    for expr in exprs {
        if !is_without_bounded_set(expr) {
            return false;
        }
    }
    true
}

/// The number of the first rule in which a Set or a PowerSet with a bound stands.
fn first_bounded_set(spec: &Spec) -> Option<u32>
    ensures value { result ≡ first_bounded_set spec.now }
    ensures within { IfSome result (λ rule. (1 ≤ rule) × (rule ≤ length spec.now)) }
{
    for place in 0..spec.rules() {
        if !is_without_bounded_set(spec.right(place + 1)) {
            return Some(place + 1);
        }
    }
    None
}

/// The number of the rule for which the grammar has no equations.
fn rule_without_equation(grammar: &Grammar) -> Option<u32>
    ensures value { result ≡ rule_without_equation (rules_of grammar.now) }
    ensures within { IfSome result (λ rule. (1 ≤ rule) × (rule ≤ length grammar.now.rules)) }
{
    match grammar.universe() {
        Universe::Labelled => None,
        Universe::Unlabelled => first_bounded_set(grammar.spec()),
    }
}

/// What an expression says at a depth.
#[cycle(terms)]
fn term_of(
    alloc: Global,
    universe: Universe,
    variable: &[u8],
    depth: u32,
    expr: &Expr,
) -> Result<Term, AllocError>
    requires { depth + nodes expr.now ≤ 128 }
    ensures { IfOk result (λ said. said ≡ term universe variable.now depth expr.now) }
{
    match &expr.shape {
        ExprShape::Epsilon => Ok(Term::simple(Bytes::from_slice(alloc, b"1")?)),
        ExprShape::Atom => argument(alloc, variable, depth),
        ExprShape::Name(name) => {
            let argument = argument(alloc, variable, depth)?;
            call(alloc, name.as_slice(), argument.text.as_slice())
        }
        ExprShape::Union(arguments) => {
            let terms = terms_of(alloc, universe, variable, depth, arguments.as_slice())?;
            sum_of(alloc, terms)
        }
        ExprShape::Prod(arguments) => {
            let terms = terms_of(alloc, universe, variable, depth, arguments.as_slice())?;
            product_of(alloc, terms)
        }
        ExprShape::Many(kind, element, card) => {
            let inside = element_depth(*kind, universe, depth);
            let element = term_of(alloc, universe, variable, inside, element)?;
            container(alloc, *kind, universe, depth, Bound::of(*card), &element)
        }
    }
}

/// What the expressions say, one by one.
#[cycle(terms)]
#[tactic(auto, using(spec_syntax::proofs::NodeSteps::nodes_of_one))]
fn terms_of(
    alloc: Global,
    universe: Universe,
    variable: &[u8],
    depth: u32,
    exprs: &[Expr],
) -> Result<Vec<Term>, AllocError>
    requires { depth + nodes_of_all (expressions_of exprs.now) ≤ 128 }
    ensures { IfOk result (λ said. said.items ≡ terms universe variable.now depth (expressions_of exprs.now)) }
{
    let mut said = Vec::new(alloc);
    for expr in exprs {
        said.push(term_of(alloc, universe, variable, depth, expr)?)?;
    }
    Ok(said)
}

/// Puts the equation of a rule at the end.
fn push_equation(
    alloc: Global,
    universe: Universe,
    variable: &[u8],
    name: &[u8],
    right: &Expr,
    text: &mut Bytes,
) -> Result<(), AllocError>
    requires { nodes right.now ≤ 128 }
    ensures { OnOk result (text.new ≡ text.old ++ equation universe variable.now (name.now, right.now)) }
{
    text.extend_from_slice(name)?;
    text.extend_from_slice(b"(")?;
    text.extend_from_slice(variable)?;
    text.extend_from_slice(b") = ")?;
    let said = term_of(alloc, universe, variable, 0, right)?;
    text.extend_from_slice(said.text.as_slice())
}

/// Puts a comma and a space at the end, unless the place is the first.
fn push_separator(place: u32, text: &mut Bytes) -> Result<(), AllocError>
    ensures { OnOk result (text.new ≡ text.old ++ (if nat_eq place 0 then [] else codes ", ")) }
{
    if place == 0 {
        Ok(())
    } else {
        text.extend_from_slice(b", ")
    }
}

/// The equations of the rules in written order.
fn equations_of(
    alloc: Global,
    universe: Universe,
    spec: &Spec,
    variable: &[u8],
) -> Result<Bytes, AllocError>
    ensures { IfOk result (λ text. text ≡ equations (record { rules = spec.now; universe = universe }) variable.now) }
{
    let mut text = Bytes::from_slice(alloc, b"[")?;
    for place in 0..spec.rules() {
        push_separator(place, &mut text)?;
        let name = spec.name(place + 1).as_slice();
        push_equation(
            alloc,
            universe,
            variable,
            name,
            spec.right(place + 1),
            &mut text,
        )?;
    }
    text.extend_from_slice(b"]")?;
    Ok(text)
}

/// The equations of the generating functions of a grammar's rules, with the name of their variable: `[`, one equation for each
/// rule in written order with a comma and a space between them, `]`. They are of exponential generating functions in a labelled
/// grammar, and of ordinary ones in an unlabelled grammar.
///
/// A name that is also the variable's or that of an index of a sum, as `i` or `j1`, isn't renamed. Where containers with a
/// bound `card >= k` stand inside one another, the text grows exponentially with their number.
///
/// An equation is read off the right side by the symbolic method: Flajolet and Sedgewick, "Analytic Combinatorics" (2009).
///
/// # Errors
///
/// `CardUnlabelled` comes where an unlabelled grammar holds a Set or a PowerSet with a bound on its components, and tells the number of
/// the first such rule. Memory may be wanting.
pub fn equations(alloc: Global, grammar: &Grammar, var: &Name) -> Result<Bytes, GfFault>
    ensures text { IfOk result (λ text. text ≡ equations (rules_of grammar.now) var.now) }
    ensures has_text { IfOk result (λ _. rule_without_equation (rules_of grammar.now) ≡ None) }
    ensures card { IfErr result (Blames (rule_without_equation (rules_of grammar.now))) }
    ensures within { IfErr result (TellsRule grammar.now.rules) }
{
    match rule_without_equation(grammar) {
        Some(rule) => Err(GfFault::CardUnlabelled(rule)),
        None => Ok(equations_of(alloc, grammar.universe(), grammar.spec(), var.as_slice())?),
    }
}
