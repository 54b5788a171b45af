//! The arguments of a Union that have structures.
ghost use Rattle.std.specs.Prelude.{◌≤◌, IfSome, IfNone, length};
ghost use Rattle.spec_syntax.specs.Nodes.{children_at};
ghost use Rattle.well_founded.specs.declared.node.NodeKind.TheVariants as told;
ghost use Rattle.listing_laws.specs.NodeListing.{HasKind};
ghost use Rattle.size_counts.specs.CountedView.{IsReachedIn};
ghost use Rattle.struct_walk.specs.Opened.{IsNextArgument, HasNoArgument};

use size_counts::Counted;

/// The number of the first argument of the Union behind argument `number` that has a structure with `n` atoms, if there is
/// one.
pub(crate) fn next_argument(counted: &Counted, node: u32, number: u32, n: u32) -> Option<u32>
    requires reached { IsReachedIn counted.now node }
    requires union { HasKind counted.now.checked node told.Union }
    requires within { n ≤ counted.now.size }
    ensures some { IfSome result (IsNextArgument counted.now.checked node number n) }
    ensures none { IfNone result (HasNoArgument counted.now.checked node number n) }
{
    let grammar = counted.grammar();
    for place in number..grammar.children(node) {
        if 0 < counted.number(grammar.child(node, place + 1), n) {
            return Some(place + 1);
        }
    }
    None
}
