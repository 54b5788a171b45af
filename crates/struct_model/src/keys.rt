//! Keys of structures, compared without making them.
ghost use Rattle.std.specs.Prelude.{◌≡◌, ◌+◌, ◌<◌, ◌≤◌, ◌^◌, length, is_some};
ghost use Rattle.std.specs.ControlFlow.{MatchControlFlow};
ghost use Rattle.struct_model.specs.Structure.{labels, labels_of_parts, parts_of};
ghost use Rattle.struct_model.specs.Order.{key_order};
ghost use Rattle.struct_model.specs.Runs.{run_count, lesser_run, merged, first_run, key_order_from};

use crate::{Shape, Struct, Structs};
use std::cmp::Ordering;
use std::ops::ControlFlow;

/// A label, and how many atoms have it.
#[derive(Clone, Copy)]
pub(crate) struct Run {
    label: u32,
    count: u32,
}

/// The run of the lesser label, or both together where they have one label.
fn lesser_run(here: Run, there: Run) -> Run
    requires { here.count + there.count < 2 ^ 32 }
    ensures { result ≡ lesser_run here there }
{
    match here.label.cmp(&there.label) {
        Ordering::Less => here,
        Ordering::Greater => there,
        Ordering::Equal => Run {
            label: here.label,
            count: here.count + there.count,
        },
    }
}

/// The same where a run may be absent.
fn merge(here: Option<Run>, there: Option<Run>) -> Option<Run>
    requires { run_count here + run_count there < 2 ^ 32 }
    ensures { result ≡ merged here there }
{
    match (here, there) {
        (Some(here), Some(there)) => Some(lesser_run(here, there)),
        (None, run) => run,
        (run, None) => run,
    }
}

/// The run of the least label that is at least `low`.
#[cycle(running)]
fn first_run(s: &Struct, low: u64) -> Option<Run>
    ensures { result ≡ first_run low (labels s.now) }
{
    match &s.shape {
        Shape::Eps(_) => None,
        Shape::Atom(_, label) if u64::from(*label) < low => None,
        Shape::Atom(_, label) => Some(Run {
            label: *label,
            count: 1,
        }),
        Shape::Named(_, inside) => first_run(inside, low),
        Shape::Alt(_, inside) => first_run(inside, low),
        Shape::Tup(_, parts) => first_run_of_parts(parts, low),
    }
}

/// The same over all the parts.
#[cycle(running)]
#[tactic(auto, using(crate::proofs::Parts::nodes_of_part))]
fn first_run_of_parts(parts: &Structs, low: u64) -> Option<Run>
    requires { length (labels_of_parts (parts_of parts.now)) < 2 ^ 32 }
    ensures { result ≡ first_run low (labels_of_parts (parts_of parts.now)) }
{
    let mut first = None;
    for part in parts.as_slice() {
        first = merge(first, first_run(part, low));
    }
    first
}

/// Whether an atom of `s` has a label of at least `low`.
fn has_label_from(s: &Struct, low: u64) -> bool
    ensures { result ≡ is_some (first_run low (labels s.now)) }
{
    first_run(s, low).is_some()
}

/// Compares the first runs from the label `low` on: the answer, or the label to go on from where they are alike.
fn compare_first_runs(s: &Struct, t: &Struct, low: u64) -> ControlFlow<Ordering, u64>
    ensures { MatchControlFlow
        result
        (λ next. (low < next) × (next ≤ 2 ^ 32) × (key_order_from next s.now t.now ≡ key_order_from low s.now t.now))
        (λ answer. answer ≡ key_order_from low s.now t.now) }
{
    let (here, there) = match (first_run(s, low), first_run(t, low)) {
        (Some(here), Some(there)) => (here, there),
        (None, None) => return ControlFlow::Break(Ordering::Equal),
        (None, Some(_)) => return ControlFlow::Break(Ordering::Less),
        (Some(_), None) => return ControlFlow::Break(Ordering::Greater),
    };
    if here.label != there.label {
        return ControlFlow::Break(here.label.cmp(&there.label));
    }
    let next = u64::from(here.label) + 1;
    // The key that has the label less often ends there, or goes on with a greater label.
    match here.count.cmp(&there.count) {
        Ordering::Equal => ControlFlow::Continue(next),
        Ordering::Less if has_label_from(s, next) => ControlFlow::Break(Ordering::Greater),
        Ordering::Less => ControlFlow::Break(Ordering::Less),
        Ordering::Greater if has_label_from(t, next) => ControlFlow::Break(Ordering::Less),
        Ordering::Greater => ControlFlow::Break(Ordering::Greater),
    }
}

/// The order of the keys of `s` and `t`. It takes no memory.
pub(crate) fn compare_keys(s: &Struct, t: &Struct) -> Ordering
    ensures { result ≡ key_order s.now t.now }
{
    let mut low = 0;
    loop {
        match compare_first_runs(s, t, low) {
            ControlFlow::Continue(next) => low = next,
            ControlFlow::Break(answer) => return answer,
        }
    }
}
