//! Specifications: the rules of a grammar.
ghost use Rattle.std.specs.Prelude.{◌≡◌, ◌≤◌, [], ◌∷◌, ◌++◌, Some, None, length, IfOk, OnOk, OnErr, IsTrue};
ghost use Rattle.spec_syntax.specs.Rules.{symbol, rule_name, right_side, is_spec, is_same_name};
ghost use Rattle.spec_syntax.specs.Expression.{nodes, is_well_formed};
ghost use Rattle.std.specs.Map.{lookup};

use crate::expr::copy_expr;
use crate::{Expr, Name};
use indexmap::IndexMap;
use std::alloc::{AllocError, Global};
use std::marker::Model;

/// The rules of a grammar in written order, numbered from 1.
///
/// The names are distinct and each is spelt as a word: an ASCII letter or `_`, then letters, digits and `_`. Each Union
/// and each Prod has at least one argument, each bound is one that can be written, and there are at most 64 rules and at
/// most 128 expressions in them.
#[derive(Drop)]
pub struct Spec {
    rules: IndexMap<Name, Expr>,
}

impl Model for Spec {
    ghost use Rattle.std.specs.Prelude.{ℕ, List, IsTrue};
    ghost use Rattle.spec_syntax.specs.Expression.{Expression};
    ghost use Rattle.spec_syntax.specs.Rules.{rules_code, is_spec};

    ghost Value = { List (List ℕ × Expression) };

    ghost coded = { rules_code };

    ghost view = { λ a. a.rules.entries };

    ghost invariant = { λ a. IsTrue (is_spec a.rules.entries) };
}

/// Puts a rule with a new name at the end.
fn append(rules: &mut IndexMap<Name, Expr>, name: Name, right: Expr) -> Result<(), AllocError>
    requires { lookup (is_same_name name) rules.old.entries ≡ None }
    ensures ok { OnOk result (rules.new.entries ≡ rules.old.entries ++ (name, right) ∷ []) }
    ensures err { OnErr result (rules.new.entries ≡ rules.old.entries) }
{
    rules.insert(name, right)?;
    Ok(())
}

impl Spec {
    /// The specification without a rule. It takes no memory.
    pub fn new(alloc: Global) -> Spec
        ensures { result ≡ [] }
    {
        Spec {
            rules: IndexMap::new(alloc),
        }
    }

    /// Puts a rule at the end.
    ///
    /// # Errors
    ///
    /// Where memory is wanting the name and the right side are dropped, and the specification is as before.
    pub fn add(&mut self, name: Name, right: Expr) -> Result<(), AllocError>
        requires { IsTrue (is_spec (self.old ++ (name, right) ∷ [])) }
        ensures ok { OnOk result (self.new ≡ self.old ++ (name, right) ∷ []) }
        ensures err { OnErr result (self.new ≡ self.old) }
    {
        append(&mut self.rules, name, right)
    }

    /// A specification of the same rules.
    ///
    /// # Errors
    ///
    /// Memory may be wanting.
    pub fn copy(&self, alloc: Global) -> Result<Spec, AllocError>
        ensures { IfOk result (λ copied. copied ≡ self.now) }
    {
        let mut rules = IndexMap::new(alloc);
        for (name, right) in &self.rules {
            let name = Name::from_slice(alloc, name.as_slice())?;
            let right = copy_expr(alloc, right)?;
            append(&mut rules, name, right)?;
        }
        Ok(Spec { rules })
    }

    /// The number of rules.
    pub fn rules(&self) -> u32
        ensures value { result ≡ length self.now }
        ensures kept { IsTrue (is_spec self.now) }
    {
        self.rules.len() as u32
    }

    /// The name of rule number `sym`, counted from 1.
    pub fn name(&self, sym: u32) -> &Name
        requires low { 1 ≤ sym }
        requires high { sym ≤ length self.now }
        ensures { result.now ≡ rule_name self.now sym }
    {
        let (name, _) = self.rules.get_index(sym as usize - 1).unwrap();
        name
    }

    /// The right side of rule number `sym`, counted from 1.
    pub fn right(&self, sym: u32) -> &Expr
        requires low { 1 ≤ sym }
        requires high { sym ≤ length self.now }
        ensures value { right_side self.now sym ≡ Some result.now }
        ensures kept { IsTrue (is_spec self.now) }
    {
        let (_, right) = self.rules.get_index(sym as usize - 1).unwrap();
        right
    }

    /// The number of the rule with this name, counted from 1, or `None` where no rule has it.
    pub fn find(&self, name: &[u8]) -> Option<u32>
        ensures { result ≡ symbol self.now name.now }
    {
        for place in 0..self.rules() {
            if self.name(place + 1).as_slice() == name {
                return Some(place + 1);
            }
        }
        None
    }
}

#[cfg(test)]
mod tests {
    use super::*;
    use crate::{Card, ExprShape, Exprs, Kind};
    use std::test::Fail;

    /// The union of an atom and of the sequences of at least one structure of `B2`.
    fn sample(alloc: Global) -> Result<Expr, AllocError>
        ensures { IfOk result (λ expr. IsTrue (is_well_formed expr) × (nodes expr ≡ 4)) }
    {
        let used = Expr {
            shape: ExprShape::Name(Name::from_slice(alloc, b"B2")?),
        };
        let card = Card { low: 1, high: None };
        let many = Expr {
            shape: ExprShape::Many(Kind::Sequence, Box::new(alloc, used)?, card),
        };
        let mut arguments = Exprs::new(alloc);
        arguments.push(Expr {
            shape: ExprShape::Atom,
        })?;
        arguments.push(many)?;
        Ok(Expr {
            shape: ExprShape::Union(arguments),
        })
    }

    /// Whether the expression is `sample`.
    fn is_sample(expr: &Expr) -> bool {
        let ExprShape::Union(arguments) = &expr.shape else {
            return false;
        };
        if arguments.len() != 2 {
            return false;
        }
        let ExprShape::Atom = &arguments.at(0).shape else {
            return false;
        };
        let ExprShape::Many(kind, element, card) = &arguments.at(1).shape else {
            return false;
        };
        let ExprShape::Name(used) = &element.shape else {
            return false;
        };
        *kind == Kind::Sequence
            && *card == Card { low: 1, high: None }
            && used.as_slice() == b"B2".as_slice()
    }

    #[test]
    fn a_specification(rt: HostRuntime) -> Result<(), Fail> {
        let alloc = rt.alloc();
        let mut spec = Spec::new(alloc);
        assert_eq!(rt; spec.rules(), 0);
        spec.add(Name::from_slice(alloc, b"A")?, sample(alloc)?)?;
        spec.add(
            Name::from_slice(alloc, b"B2")?,
            Expr {
                shape: ExprShape::Epsilon,
            },
        )?;
        let copied = spec.copy(alloc)?;
        assert_eq!(rt; copied.rules(), 2);
        assert_eq!(rt; copied.name(2).as_slice(), b"B2".as_slice());
        assert!(rt; is_sample(copied.right(1)));
        assert!(rt; !is_sample(copied.right(2)));
        assert_eq!(rt; copied.find(b"B2"), Some(2));
        assert_eq!(rt; copied.find(b"B"), None);
        Ok(())
    }

    #[test]
    fn bounds_at_their_edges(rt: HostRuntime) {
        let cases = [
            (0, None, 0, true),
            (2, None, 1, false),
            (2, None, 2, true),
            (0, Some(2), 2, true),
            (0, Some(2), 3, false),
            (3, Some(3), 2, false),
            (3, Some(3), 3, true),
            (3, Some(3), 4, false),
        ];
        for (low, high, c, admitted) in cases {
            assert_eq!(rt; Card { low, high }.admits(c), admitted);
        }
    }
}
