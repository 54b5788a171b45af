//! PowerSets without labels, which no draw goes through.
ghost use Rattle.std.specs.Prelude.{IfNone, IfSome};
ghost use Rattle.draw_steps.specs.Asked.{NoPowerSets};
ghost use Rattle.draw_steps.specs.PowerSets.{IsFirstPowerSet};

use size_counts::Counted;
use spec_syntax::Universe;
use well_founded::NodeKind;

/// The first node that is a PowerSet without labels and is reached from the class.
pub fn first_power_set(counted: &Counted) -> Option<u32>
    ensures some { IfSome result (λ node. IsFirstPowerSet counted.now node) }
    ensures none { IfNone result (NoPowerSets counted.now) }
{
    let grammar = counted.grammar();
    match grammar.universe() {
        Universe::Labelled => None,
        Universe::Unlabelled => {
            for node in 0..grammar.nodes() {
                if grammar.kind(node) == NodeKind::PowerSet && counted.reached(node) {
                    return Some(node);
                }
            }
            None
        }
    }
}
