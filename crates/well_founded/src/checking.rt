//! The check of a grammar.
ghost use Rattle.std.specs.Prelude.{◌≡◌, ◌≢◌, ℕ, ◌≤◌, ◌<◌, ◌+◌, Some, None, length, position, is_none, unwrap_or, get_or, IfOk, IfErr, IfSome, All, Option, List};
ghost use Rattle.std.specs.Option.{option_copied, option_and_then};
ghost use Rattle.spec_syntax.specs.Rules.{symbol, rule_name};
ghost use Rattle.well_founded.specs.Names.{undefined_name};
ghost use Rattle.well_founded.specs.Sizes.{no_least};
ghost use Rattle.well_founded.specs.Sized.{IsAllButFinite};
ghost use Rattle.graphs.specs.Graph.{IsGraph, IsFirstRound, IsNoRound};
ghost use Rattle.well_founded.specs.WellFounded.{IsWellFounded, IsCulprit, Checks};

use crate::containers::{first_over_null, first_with_cycle};
use crate::grammar::checked;
use crate::graph::{leads_to_itself, ranks};
use crate::least::{NO_LEAST, least_sizes};
use crate::leasts::node_leasts;
use crate::names::undefined_name;
use crate::node::{nodes_of_rules, right_nodes};
use crate::same_size::same_size_graph;
use crate::{Grammar, Refused};
use seq::Seq;
use spec_syntax::{Name, Spec, Universe};
use std::alloc::{AllocError, Global};

/// The name of rule number `sym`, counted from 1.
fn name_of(alloc: Global, spec: &Spec, sym: u32) -> Result<Name, AllocError>
    requires low { 1 ≤ sym }
    requires high { sym ≤ length spec.now }
    ensures { IfOk result (λ name. name ≡ rule_name spec.now sym) }
{
    Name::from_slice(alloc, spec.name(sym).as_slice())
}

/// The place, from 0, of the first rule without a structure.
fn first_without(sizes: &[Option<u32>]) -> Option<usize>
    ensures { result ≡ position is_none sizes.now }
{
    sizes.iter().position(|size| size.is_none())
}

/// The place, from 0, of the first of the nodes that lead to themselves.
fn first_round(
    alloc: Global,
    graph: &[Seq<u32>],
    roots: &[u32],
) -> Result<Option<usize>, AllocError>
    requires graph { IsGraph graph.now }
    requires few { length graph.now ≤ 128 }
    requires roots { All (λ root. root < length graph.now) roots.now }
    ensures found { IfOk result (λ found. IfSome found (λ place. IsFirstRound graph.now roots.now place)) }
    ensures none { IfOk result (λ found. found ≡ None → IsNoRound graph.now roots.now) }
{
    for place in 0..roots.len() {
        if leads_to_itself(alloc, graph, roots[place])? {
            return Ok(Some(place));
        }
    }
    Ok(None)
}

/// The number of the rule that the class symbol names.
fn number_of(spec: &Spec, start: Option<&Name>) -> Option<u32>
    ensures value { result ≡ option_and_then (symbol spec.now) (option_copied start.entry) }
    ensures within { IfSome result (λ sym. (1 ≤ sym) × (sym ≤ length spec.now)) }
{
    match start {
        Some(name) => spec.find(name.as_slice()),
        None => None,
    }
}

/// The refusal of the rule at this place, from 0, as endless.
fn endless(
    alloc: Global,
    spec: &Spec,
    sizes: &[Option<u32>],
    place: usize,
) -> Result<Refused, AllocError>
    requires few { length spec.now ≤ 64 }
    requires for_each { length sizes.now ≡ length spec.now }
    requires within { place < length spec.now }
    ensures { IfOk result (λ refused. refused ≡ Refused.Endless (rule_name spec.now (place + 1)) (unwrap_or (get_or sizes.now place None) no_least)) }
{
    let name = name_of(alloc, spec, place as u32 + 1)?;
    Ok(Refused::Endless(name, sizes[place].unwrap_or(NO_LEAST)))
}

/// The tables of a grammar that isn't refused for any other fault, or the refusal of an endless rule.
fn check_sized(
    alloc: Global,
    spec: &Spec,
    sizes: &[Option<u32>],
    universe: Universe,
    start: Option<u32>,
) -> Result<Grammar, Refused>
    requires all_but_finite { IsAllButFinite (record { rules = spec.now; universe = universe }) sizes.now }
    requires start { IfSome start (λ sym. (1 ≤ sym) × (sym ≤ length spec.now)) }
    ensures rules { IfOk result (λ grammar. grammar.rules ≡ spec.now) }
    ensures universe { IfOk result (λ grammar. grammar.universe ≡ universe) }
    ensures start { IfOk result (λ grammar. grammar.start ≡ start) }
    ensures passes { IfOk result (λ _. IsWellFounded (record { rules = spec.now; universe = universe })) }
    ensures refused { IfErr result (λ refused. refused ≢ Refused.Memory → (given : Option (List ℕ)) → undefined_name spec.now given ≡ None
        → IsCulprit (record { rules = spec.now; universe = universe }) given refused) }
{
    let roots = right_nodes(alloc, spec)?;
    let graph = same_size_graph(alloc, spec, sizes, roots.as_slice())?;
    if let Some(place) = first_round(alloc, &graph, &roots)? {
        return Err(endless(alloc, spec, sizes, place)?);
    }
    let ranks = ranks(alloc, &graph)?;
    let leasts = node_leasts(alloc, spec, sizes)?;
    let nodes = nodes_of_rules(alloc, spec)?;
    let rules = spec.copy(alloc)?;
    Ok(checked(rules, universe, start, nodes, roots, leasts, ranks))
}

/// The grammar of these rules in this universe, whose start is the rule that `start` names, where it is well founded and
/// the start, if given, has a rule.
///
/// # Errors
///
/// Otherwise the refusal that names the culprit, in this order over all rules: `Undefined` names the first name in written
/// order without a rule, the start last; `CycleUnlabelled` the first rule that holds a Cycle, where the universe is
/// unlabelled; `Unproductive` the first rule without a structure; `NullElement` the first rule with a container, of
/// whatever bound, over a class that has a structure of size 0; `Endless` the first rule that has a structure strictly
/// inside which stands a structure of the same rule and size. Or memory is wanting.
pub fn check(
    alloc: Global,
    spec: &Spec,
    start: Option<&Name>,
    universe: Universe,
) -> Result<Grammar, Refused>
    ensures rules { IfOk result (λ grammar. grammar.rules ≡ spec.now) }
    ensures universe { IfOk result (λ grammar. grammar.universe ≡ universe) }
    ensures start { IfOk result (λ grammar. grammar.start ≡ option_and_then (symbol spec.now) (option_copied start.entry)) }
    ensures passes { IfOk result (λ _. Checks (record { rules = spec.now; universe = universe }) (option_copied start.entry) None) }
    ensures refused { IfErr result (λ refused. refused ≢ Refused.Memory → IsCulprit (record { rules = spec.now; universe = universe }) (option_copied start.entry) refused) }
{
    if let Some(name) = undefined_name(spec, start) {
        let name = Name::from_slice(alloc, name.as_slice())?;
        return Err(Refused::Undefined(name));
    }
    if let Some(sym) = first_with_cycle(spec, universe) {
        return Err(Refused::CycleUnlabelled(name_of(alloc, spec, sym)?));
    }
    let sizes = least_sizes(alloc, spec)?;
    if let Some(place) = first_without(&sizes) {
        return Err(Refused::Unproductive(name_of(alloc, spec, place as u32 + 1)?));
    }
    if let Some(sym) = first_over_null(spec, &sizes) {
        return Err(Refused::NullElement(name_of(alloc, spec, sym)?));
    }
    check_sized(alloc, spec, &sizes, universe, number_of(spec, start))
}
