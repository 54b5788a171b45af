//! The numbers of lists of structures of a Prod's arguments, from each argument on.
ghost use Rattle.std.specs.Prelude.{◌≡◌, ◌+◌, ◌-◌, ◌≤◌, ◌<◌, ℕ, Bool, Some, length, IfOk};
ghost use Rattle.spec_syntax.specs.Expression.{Expressions, Prod, expression_list};
ghost use Rattle.spec_syntax.specs.Rules.{all_nodes};
ghost use Rattle.spec_syntax.specs.Nodes.{node_at, children_at};
ghost use Rattle.well_founded.specs.Checked.{grammar};
ghost use Rattle.graphs.specs.Graph.{IsMarked};
ghost use Rattle.size_counts.specs.Told.{IsReady};
ghost use Rattle.size_counts.specs.Suffixes.{IsNothing, NoneBelow, OthersTold, ArgumentsTold, SuffixesTold, needs_atoms, AreUpToFirst, FirstsTold, AreBegun};

use crate::sums::joined;
use crate::tables::{Tables, column};
use seq::Seq;
use std::alloc::{AllocError, Global};

/// The numbers of lists of no structures, by size up to m.
fn nothing(alloc: Global, m: u32) -> Result<Vec<Option<u128>>, AllocError>
    requires { m ≤ 1000 }
    ensures { IfOk result (λ made. IsNothing m made.items) }
{
    let mut made = vec![in alloc; Some(0); m as usize + 1]?;
    made[0] = Some(1);
    Ok(made)
}

/// The numbers of lists of structures of the Prod's arguments behind the first so many, by size up to m. Unless these are all
/// arguments, the number at size m isn't known yet, and 0 stands in its place.
fn others_behind(
    alloc: Global,
    tables: &Tables,
    node: u32,
    m: u32,
    place: u32,
) -> Result<Vec<Option<u128>>, AllocError>
    requires ready { IsReady tables.now m }
    requires marked { IsMarked tables.now.marks.items node }
    requires high { place ≤ length (children_at tables.now.grammar.rules node) }
    ensures for_each { IfOk result (λ made. length made.items ≡ m + 1) }
    ensures told { IfOk result (λ made. (arguments : Expressions) (zero : ℕ → Bool) → node_at tables.now.grammar.rules node ≡ Some (Prod arguments) → (place < length (expression_list arguments) → NoneBelow zero place → ⊥) → OthersTold (grammar tables.now.grammar) arguments m zero place made.items) }
{
    if place == tables.grammar.children(node) {
        return nothing(alloc, m);
    }
    column(alloc, tables.layers.as_slice(), node, place, Some(0))
}

/// The numbers of lists of structures of the Prod's arguments from each one on with m atoms in all, from argument number
/// `high` down to the one behind the first `low`, by what is told of the counts at size m.
///
/// # Errors
///
/// Memory may be wanting.
pub(crate) fn suffixes(
    alloc: Global,
    tables: &Tables,
    node: u32,
    m: u32,
    now: &[Option<u128>],
    low: u32,
    high: u32,
) -> Result<Seq<Option<u128>>, AllocError>
    requires ready { IsReady tables.now m }
    requires marked { IsMarked tables.now.marks.items node }
    requires for_each { length now.now ≡ length (all_nodes tables.now.grammar.rules) }
    requires low { low ≤ high }
    requires high { high ≤ length (children_at tables.now.grammar.rules node) }
    ensures count { IfOk result (λ made. length made ≡ high - low) }
    ensures told { IfOk result (λ made. (arguments : Expressions) (zero : ℕ → Bool) → node_at tables.now.grammar.rules node ≡ Some (Prod arguments) → ArgumentsTold (grammar tables.now.grammar) arguments (children_at tables.now.grammar.rules node) now.now m zero → (high < length (expression_list arguments) → NoneBelow zero high → ⊥) → SuffixesTold (grammar tables.now.grammar) arguments m zero high (high - low) made) }
{
    let layers = tables.layers.as_slice();
    let mut made = Seq::new(alloc);
    let mut others = others_behind(alloc, tables, node, m, high)?;
    for later in 0..high - low {
        let i = high - later;
        let argument = tables.grammar.child(node, i);
        let firsts = column(alloc, layers, argument, 0, now[argument as usize])?;
        let number = joined(&tables.ways, firsts.as_slice(), others.as_slice(), m);
        made.push(number)?;
        others = column(alloc, layers, node, i - 1, number)?;
    }
    Ok(made)
}

/// How many arguments the Prod has up to the first that has no structure of size 0, or in all where each has one.
fn up_to_first(tables: &Tables, node: u32) -> u32
    requires { node < length (all_nodes tables.now.grammar.rules) }
    ensures { AreUpToFirst (needs_atoms tables.now.grammar (children_at tables.now.grammar.rules node)) result (length (children_at tables.now.grammar.rules node)) }
{
    let arguments = tables.grammar.children(node);
    for i in 0..arguments {
        if tables.grammar.least(tables.grammar.child(node, i + 1)) > 0 {
            return i + 1;
        }
    }
    arguments
}

/// The numbers of lists of structures of the Prod's arguments from each one on with m atoms in all, as far as the first of
/// these numbers needs them: from the first argument that has no structure of size 0 down to the first one.
///
/// # Errors
///
/// Memory may be wanting.
pub(crate) fn first_suffixes(
    alloc: Global,
    tables: &Tables,
    node: u32,
    m: u32,
    now: &[Option<u128>],
) -> Result<Seq<Option<u128>>, AllocError>
    requires ready { IsReady tables.now m }
    requires marked { IsMarked tables.now.marks.items node }
    requires for_each { length now.now ≡ length (all_nodes tables.now.grammar.rules) }
    ensures told { IfOk result (λ made. (arguments : Expressions) → node_at tables.now.grammar.rules node ≡ Some (Prod arguments) → ArgumentsTold (grammar tables.now.grammar) arguments (children_at tables.now.grammar.rules node) now.now m (needs_atoms tables.now.grammar (children_at tables.now.grammar.rules node)) → FirstsTold (grammar tables.now.grammar) arguments m made) }
    ensures begun { IfOk result (λ made. (arguments : Expressions) → node_at tables.now.grammar.rules node ≡ Some (Prod arguments) → AreBegun arguments made) }
{
    let high = up_to_first(tables, node);
    suffixes(alloc, tables, node, m, now, 0, high)
}
