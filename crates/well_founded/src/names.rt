//! Names that are used without a rule.
ghost use Rattle.std.specs.Prelude.{◌≡◌, find};
ghost use Rattle.std.specs.Option.{option_copied};
ghost use Rattle.well_founded.specs.Names.{used_names, names_used_in, undefined_name};
ghost use Rattle.well_founded.specs.UsedNames.{lacks_rule, used_in_all};

use spec_syntax::{Expr, ExprShape, Name, Spec};

/// Whether no rule has the name.
fn lacks_rule(spec: &Spec, name: &Name) -> bool
    ensures { result ≡ lacks_rule spec.now name.now }
{
    spec.find(name.as_slice()).is_none()
}

/// The first name without a rule in an expression, from left to right.
#[cycle(naming)]
fn first_name<'a>(spec: &Spec, expr: &'a Expr) -> Option<&'a Name>
    ensures { option_copied result ≡ find (lacks_rule spec.now) (used_names expr.now) }
{
    match &expr.shape {
        ExprShape::Epsilon | ExprShape::Atom => None,
        ExprShape::Name(name) => lacks_rule(spec, name).then_some(name),
        ExprShape::Union(arguments) => first_name_of(spec, arguments.as_slice()),
        ExprShape::Prod(arguments) => first_name_of(spec, arguments.as_slice()),
        ExprShape::Many(_, element, _) => first_name(spec, element),
    }
}

/// The first name without a rule in a list of expressions, from left to right.
#[cycle(naming)]
fn first_name_of<'a>(spec: &Spec, exprs: &'a [Expr]) -> Option<&'a Name>
    ensures { option_copied result ≡ find (lacks_rule spec.now) (used_in_all exprs.now) }
{
    for expr in exprs {
        if let Some(name) = first_name(spec, expr) {
            return Some(name);
        }
    }
    None
}

/// The first name without a rule in the right sides, rule by rule.
fn first_used(spec: &Spec) -> Option<&Name>
    ensures { option_copied result ≡ find (lacks_rule spec.now) (names_used_in spec.now) }
{
    for place in 0..spec.rules() {
        if let Some(name) = first_name(spec, spec.right(place + 1)) {
            return Some(name);
        }
    }
    None
}

/// The first name in written order that has no rule; the class symbol, where there is one, stands last.
pub(crate) fn undefined_name<'a>(spec: &'a Spec, start: Option<&'a Name>) -> Option<&'a Name>
    ensures { option_copied result ≡ undefined_name spec.now (option_copied start.entry) }
{
    match (first_used(spec), start) {
        (Some(name), _) => Some(name),
        (None, Some(start)) => lacks_rule(spec, start).then_some(start),
        (None, None) => None,
    }
}
