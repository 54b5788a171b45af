//! Which structures an expression has, and which a class has at a size.
ghost use Rattle.std.specs.Prelude.{◌≡◌, ◌+◌, ◌<◌, ◌≤◌, ◌^◌, Some, IfSome, IfNone, IfOk, IsTrue, false, ◌&&◌, nat_eq, nat_lt, length};
ghost use Rattle.std.specs.List.{count_by};
ghost use Rattle.std.specs.Option.{option_map_or};
ghost use Rattle.lists.specs.Ascending.{one_to};
ghost use Rattle.spec_syntax.specs.Card.{admits, is_writable};
ghost use Rattle.spec_syntax.specs.Expression.{expressions_of, Name as NameOf, Many as ManyOf};
ghost use Rattle.spec_syntax.specs.Rules.{symbol, right_side, rule_name};
ghost use Rattle.struct_model.specs.Structure.{Tup, size, labels, labels_of_parts, parts_of, key};
ghost use Rattle.struct_model.specs.Order.{is_sorted, is_strictly_sorted, is_least_rotation};
ghost use Rattle.struct_model.specs.Membership.{is_epsilon, is_atom, is_label, is_labelled, argument, is_of, are_of, are_of_each, supply, same_labels, is_member};
ghost use Rattle.well_founded.specs.Checked.{grammar as grammar_of};

use crate::rotation::is_least;
use spec_syntax::{Card, Expr, ExprShape, Kind, Spec, Universe};
use std::cmp::Ordering;
use struct_model::{Form5, Shape, Struct, Structs, compare, size};
use well_founded::Grammar;

/// Whether an atom of the universe may carry the label: 0 where it has no labels, and otherwise at least 1.
fn is_label(universe: Universe, label: u32) -> bool
    ensures { result ≡ is_label universe label }
{
    match universe {
        Universe::Unlabelled => label == 0,
        Universe::Labelled => label > 0,
    }
}

/// Whether the expression is Epsilon.
fn is_epsilon(expr: &Expr) -> bool
    ensures { result ≡ is_epsilon expr.now }
{
    match &expr.shape {
        ExprShape::Epsilon => true,
        ExprShape::Atom
        | ExprShape::Name(_)
        | ExprShape::Union(_)
        | ExprShape::Prod(_)
        | ExprShape::Many(_, _, _) => false,
    }
}

/// Whether the expression is Z.
fn is_atom(expr: &Expr) -> bool
    ensures { result ≡ is_atom expr.now }
{
    match &expr.shape {
        ExprShape::Atom => true,
        ExprShape::Epsilon
        | ExprShape::Name(_)
        | ExprShape::Union(_)
        | ExprShape::Prod(_)
        | ExprShape::Many(_, _, _) => false,
    }
}

/// The right side of the rule with this name, where the rule's number is `rule`.
fn right_side_of<'a>(spec: &'a Spec, name: &[u8], rule: u32) -> Option<&'a Expr>
    ensures found { IfSome result (λ right. symbol spec.now name.now ≡ Some rule) }
    ensures right { IfSome result (λ right. right_side spec.now rule ≡ Some right.now) }
    ensures none { IfNone result (option_map_or (nat_eq rule) (symbol spec.now name.now) false ≡ false) }
{
    let number = spec.find(name)?;
    if number == rule {
        Some(spec.right(number))
    } else {
        None
    }
}

/// Whether a list of `count` components keeps the bound.
fn admits(card: Card, count: usize) -> bool
    ensures { result ≡ admits card count }
{
    let within = match card.high {
        None => true,
        Some(high) => count <= high as usize,
    };
    card.low as usize <= count && within
}

/// Whether no structure stands after the next one.
fn is_sorted(items: &[Struct]) -> bool
    ensures { result ≡ is_sorted items.now }
{
    for next in 1..items.len() {
        if compare(&items[next - 1], &items[next]) == Ordering::Greater {
            return false;
        }
    }
    true
}

/// Whether each structure stands before the next one.
fn is_strictly_sorted(items: &[Struct]) -> bool
    ensures { result ≡ is_strictly_sorted items.now }
{
    for next in 1..items.len() {
        if compare(&items[next - 1], &items[next]) != Ordering::Less {
            return false;
        }
    }
    true
}

/// Whether the structures can stand so in a cycle: atoms carry labels, there is a structure, and no rotation comes first.
fn is_cycle(universe: Universe, items: &[Struct]) -> bool
    ensures { result ≡ (is_labelled universe && nat_lt 0 (length items.now) && is_least_rotation items.now) }
{
    match universe {
        Universe::Unlabelled => false,
        Universe::Labelled => !items.is_empty() && is_least(items),
    }
}

/// Whether `s` is a structure of the expression: its shape is the expression's all through, with the numbers of the
/// rules and of the arguments that were passed, each atom carries a label of the universe, and lists keep the bounds and the
/// order of their containers. A name without a rule has no structure. The labels needn't be those of a size. It takes no
/// memory.
#[cycle(checking)]
pub fn is_structure(spec: &Spec, universe: Universe, expr: &Expr, s: &Struct) -> bool
    ensures { result ≡ is_of (record { rules = spec.now; universe = universe }) expr.now s.now }
{
    match (&expr.shape, &s.shape) {
        (ExprShape::Epsilon, Shape::Eps(rule)) => *rule == 0,
        (ExprShape::Atom, Shape::Atom(rule, label)) => *rule == 0 && is_label(universe, *label),
        (ExprShape::Name(name), _) => is_of_name(spec, universe, name.as_slice(), s),
        (ExprShape::Union(arguments), Shape::Alt(number, inside)) => {
            is_of_argument(spec, universe, arguments.as_slice(), *number, inside)
        }
        (ExprShape::Prod(arguments), Shape::Tup(Form5::Prod, parts)) => {
            are_of_each(spec, universe, arguments.as_slice(), parts.as_slice())
        }
        (ExprShape::Many(kind, element, card), Shape::Tup(form, parts)) => {
            is_of_many(
                spec,
                universe,
                *kind,
                element,
                *card,
                *form,
                parts.as_slice(),
            )
        }
        (
            ExprShape::Epsilon
            | ExprShape::Atom
            | ExprShape::Union(_)
            | ExprShape::Prod(_)
            | ExprShape::Many(_, _, _),
            _,
        ) => false,
    }
}

/// Whether `s` is a structure of the rule with this name.
#[cycle(checking)]
fn is_of_name(spec: &Spec, universe: Universe, name: &[u8], s: &Struct) -> bool
    ensures { result ≡ is_of (record { rules = spec.now; universe = universe }) (NameOf name.now) s.now }
{
    match &s.shape {
        Shape::Eps(rule) => match right_side_of(spec, name, *rule) {
            Some(right) => is_epsilon(right),
            None => false,
        },
        Shape::Atom(rule, label) => match right_side_of(spec, name, *rule) {
            Some(right) => is_atom(right) && is_label(universe, *label),
            None => false,
        },
        Shape::Named(rule, inside) => match right_side_of(spec, name, *rule) {
            Some(right) => {
                !is_epsilon(right) && !is_atom(right) && is_structure(spec, universe, right, inside)
            }
            None => false,
        },
        Shape::Alt(_, _) | Shape::Tup(_, _) => false,
    }
}

/// Whether `inside` is a structure of the argument of this number, counted from 1.
#[cycle(checking)]
fn is_of_argument(
    spec: &Spec,
    universe: Universe,
    arguments: &[Expr],
    number: u32,
    inside: &Struct,
) -> bool
    ensures { result ≡ option_map_or (λ e. is_of (record { rules = spec.now; universe = universe }) e inside.now) (argument (expressions_of arguments.now) number) false }
{
    if number == 0 || number as usize > arguments.len() {
        return false;
    }
    is_structure(spec, universe, &arguments[number as usize - 1], inside)
}

/// Whether there are as many components as arguments, and each is a structure of its argument.
#[cycle(checking)]
fn are_of_each(spec: &Spec, universe: Universe, arguments: &[Expr], parts: &[Struct]) -> bool
    ensures { result ≡ are_of_each (record { rules = spec.now; universe = universe }) (expressions_of arguments.now) (parts_of parts.now) }
{
    if arguments.len() != parts.len() {
        return false;
    }
    for (argument, part) in arguments.iter().zip(parts) {
        if !is_structure(spec, universe, argument, part) {
            return false;
        }
    }
    true
}

/// Whether the components, in a list of this form, are a structure of the container.
#[cycle(checking)]
fn is_of_many(
    spec: &Spec,
    universe: Universe,
    kind: Kind,
    element: &Expr,
    card: Card,
    form: Form5,
    parts: &[Struct],
) -> bool
    ensures { result ≡ is_of (record { rules = spec.now; universe = universe }) (ManyOf kind element.now card) (Tup form (parts_of parts.now)) }
{
    if !admits(card, parts.len()) {
        return false;
    }
    match (kind, form) {
        (Kind::Sequence, Form5::Sequence) => are_of(spec, universe, element, parts),
        (Kind::Set, Form5::Set) => is_sorted(parts) && are_of(spec, universe, element, parts),
        (Kind::PowerSet, Form5::PowerSet) => {
            is_strictly_sorted(parts) && are_of(spec, universe, element, parts)
        }
        (Kind::Cycle, Form5::Cycle) => {
            is_cycle(universe, parts) && are_of(spec, universe, element, parts)
        }
        (Kind::Sequence | Kind::Set | Kind::PowerSet | Kind::Cycle, _) => false,
    }
}

/// Whether each component is a structure of the element.
#[cycle(checking)]
#[tactic(auto, using(struct_model::proofs::Parts::nodes_of_part))]
fn are_of(spec: &Spec, universe: Universe, element: &Expr, parts: &[Struct]) -> bool
    ensures { result ≡ are_of (record { rules = spec.now; universe = universe }) element.now (parts_of parts.now) }
{
    for part in parts {
        if !is_structure(spec, universe, element, part) {
            return false;
        }
    }
    true
}

/// Whether `s` is a structure of rule number `sym`, counted from 1. The labels needn't be those of a size. It takes no memory.
pub fn is_of_rule(grammar: &Grammar, sym: u32, s: &Struct) -> bool
    requires low { 1 ≤ sym }
    requires high { sym ≤ length grammar.now.rules }
    ensures { result ≡ is_of (grammar_of grammar.now) (NameOf (rule_name grammar.now.rules sym)) s.now }
{
    let spec = grammar.spec();
    is_of_name(spec, grammar.universe(), spec.name(sym).as_slice(), s)
}

/// The number of atoms of `s` that carry the label.
#[cycle(counting)]
fn count_label(s: &Struct, label: u32) -> u32
    ensures { result ≡ count_by (nat_eq label) (labels s.now) }
{
    match &s.shape {
        Shape::Eps(_) => 0,
        Shape::Atom(_, own) => u32::from(*own == label),
        Shape::Named(_, inside) => count_label(inside, label),
        Shape::Alt(_, inside) => count_label(inside, label),
        Shape::Tup(_, parts) => count_label_in(parts, label),
    }
}

/// The number of atoms of all the parts that carry it.
#[cycle(counting)]
#[tactic(auto, using(struct_model::proofs::Parts::nodes_of_part))]
fn count_label_in(parts: &Structs, label: u32) -> u32
    requires { length (labels_of_parts (parts_of parts.now)) < 2 ^ 32 }
    ensures { result ≡ count_by (nat_eq label) (labels_of_parts (parts_of parts.now)) }
{
    let mut count = 0;
    for part in parts.as_slice() {
        count += count_label(part, label);
    }
    count
}

/// Whether the labels of a structure of size `n` are those from 1 to `n`, each once.
fn has_labels_to(s: &Struct, n: u32) -> bool
    requires { size s.now ≡ n }
    ensures { result ≡ same_labels (key s.now) (one_to n) }
{
    for below in 0..n {
        if count_label(s, below + 1) == 0 {
            return false;
        }
    }
    true
}

/// Whether `s` has the labels of a structure of size `n`: `n` zeros where atoms carry no labels, and otherwise those from 1
/// to `n`, each once.
fn has_labels_of_size(universe: Universe, n: u32, s: &Struct) -> bool
    ensures { result ≡ same_labels (key s.now) (supply universe n) }
{
    if size(s) != n {
        return false;
    }
    match universe {
        Universe::Unlabelled => count_label(s, 0) == n,
        Universe::Labelled => has_labels_to(s, n),
    }
}

/// Whether `s` is a structure of size `n` of the class of rule number `sym`, counted from 1: one of the rule's name whose
/// labels are `n` zeros in the unlabelled universe, and those from 1 to `n`, each once, in the labelled one. It takes no
/// memory.
pub fn is_member(grammar: &Grammar, sym: u32, n: u32, s: &Struct) -> bool
    requires low { 1 ≤ sym }
    requires high { sym ≤ length grammar.now.rules }
    ensures { result ≡ is_member (grammar_of grammar.now) (rule_name grammar.now.rules sym) n s.now }
{
    is_of_rule(grammar, sym, s) && has_labels_of_size(grammar.universe(), n, s)
}

#[cfg(test)]
mod tests {
    use super::*;
    use spec_syntax::Name;
    use std::alloc::{AllocError, Global};
    use std::test::Fail;
    use well_founded::check;

    /// The grammar `P = Set(Cycle(Z))`.
    fn sets_of_cycles(alloc: Global) -> Result<Spec, AllocError>
        ensures { IfOk result (λ spec. length spec ≡ 1) }
    {
        of_two_kinds(alloc, Kind::Set, Card { low: 0, high: None }, Kind::Cycle)
    }

    /// The grammar `P = PowerSet(Sequence(Z, card >= 1), card = 2)`.
    fn pairs_of_sequences(alloc: Global) -> Result<Spec, AllocError>
        ensures { IfOk result (λ spec. length spec ≡ 1) }
    {
        let two = Card {
            low: 2,
            high: Some(2),
        };
        of_two_kinds(alloc, Kind::PowerSet, two, Kind::Sequence)
    }

    /// The grammar whose rule `P` is this container of containers of at least one atom.
    fn of_two_kinds(alloc: Global, outer: Kind, card: Card, inner: Kind) -> Result<Spec, AllocError>
        requires { IsTrue (is_writable card) }
        ensures { IfOk result (λ spec. length spec ≡ 1) }
    {
        let atom = Expr {
            shape: ExprShape::Atom,
        };
        let some = Card { low: 1, high: None };
        let element = Expr {
            shape: ExprShape::Many(inner, Box::new(alloc, atom)?, some),
        };
        let right = Expr {
            shape: ExprShape::Many(outer, Box::new(alloc, element)?, card),
        };
        let mut spec = Spec::new(alloc);
        spec.add(Name::from_slice(alloc, b"P")?, right)?;
        Ok(spec)
    }

    /// A bare atom.
    fn atom(label: u32) -> Struct
        ensures { size result ≡ 1 }
    {
        Struct {
            shape: Shape::Atom(0, label),
        }
    }

    /// A list of one structure.
    fn one(alloc: Global, form: Form5, s: Struct) -> Result<Struct, AllocError>
        requires { size s < 10 }
        ensures { IfOk result (λ list. size list ≡ size s) }
    {
        let mut parts = Structs::new(alloc);
        parts.push(s)?;
        Ok(Struct {
            shape: Shape::Tup(form, parts),
        })
    }

    /// A list of two structures.
    fn two(alloc: Global, form: Form5, s: Struct, t: Struct) -> Result<Struct, AllocError>
        requires { size s + size t < 10 }
        ensures { IfOk result (λ list. size list ≡ size s + size t) }
    {
        let mut parts = Structs::new(alloc);
        parts.push(s)?;
        parts.push(t)?;
        Ok(Struct {
            shape: Shape::Tup(form, parts),
        })
    }

    /// A cycle of two atoms, alone in a set.
    fn cycle_in_a_set(alloc: Global, first: u32, second: u32) -> Result<Struct, AllocError> {
        let cycle = two(alloc, Form5::Cycle, atom(first), atom(second))?;
        one(alloc, Form5::Set, cycle)
    }

    /// A set of two atoms, each in a cycle of its own.
    fn set_of_cycles(alloc: Global, first: u32, second: u32) -> Result<Struct, AllocError> {
        let first = one(alloc, Form5::Cycle, atom(first))?;
        let second = one(alloc, Form5::Cycle, atom(second))?;
        two(alloc, Form5::Set, first, second)
    }

    /// Sequences of one atom and of one or two, in a power set.
    fn set_of_sequences(alloc: Global, two_atoms: bool) -> Result<Struct, AllocError> {
        let first = one(alloc, Form5::Sequence, atom(0))?;
        let second = if two_atoms {
            two(alloc, Form5::Sequence, atom(0), atom(0))?
        } else {
            one(alloc, Form5::Sequence, atom(0))?
        };
        two(alloc, Form5::PowerSet, first, second)
    }

    /// Whether the list, as a structure of the first rule, is a member of its class.
    fn is_member_of(
        alloc: Global,
        spec: &Spec,
        universe: Universe,
        n: u32,
        list: Struct,
    ) -> Result<bool, AllocError>
        requires { length spec.now ≡ 1 }
    {
        let member = Struct {
            shape: Shape::Named(1, Box::new(alloc, list)?),
        };
        match check(alloc, spec, None, universe) {
            Ok(grammar) => Ok(is_member(&grammar, 1, n, &member)),
            Err(_) => Ok(false),
        }
    }

    #[test]
    fn labelled_structures(rt: HostRuntime) -> Result<(), Fail> {
        let spec = sets_of_cycles(rt.alloc())?;
        for (first, second, is_one) in [(1, 2, true), (2, 1, false), (0, 1, false)] {
            let set = set_of_cycles(rt.alloc(), first, second)?;
            assert!(rt; is_structure(&spec, Universe::Labelled, spec.right(1), &set) == is_one);
            let set = cycle_in_a_set(rt.alloc(), first, second)?;
            assert!(rt; is_structure(&spec, Universe::Labelled, spec.right(1), &set) == is_one);
        }
        Ok(())
    }

    #[test]
    fn labelled_members(rt: HostRuntime) -> Result<(), Fail> {
        let spec = sets_of_cycles(rt.alloc())?;
        for (first, second, n, is_one) in [(1, 2, 2, true), (1, 2, 1, false), (1, 3, 2, false)] {
            let set = set_of_cycles(rt.alloc(), first, second)?;
            let answer = is_member_of(rt.alloc(), &spec, Universe::Labelled, n, set)?;
            assert!(rt; answer == is_one);
        }
        Ok(())
    }

    #[test]
    fn unlabelled_members(rt: HostRuntime) -> Result<(), Fail> {
        let spec = pairs_of_sequences(rt.alloc())?;
        for (two_atoms, n, is_one) in [(true, 3, true), (true, 2, false), (false, 2, false)] {
            let set = set_of_sequences(rt.alloc(), two_atoms)?;
            let answer = is_member_of(rt.alloc(), &spec, Universe::Unlabelled, n, set)?;
            assert!(rt; answer == is_one);
        }
        Ok(())
    }
}
