//! The steps of a draw: which choices the structures of a class have, and what bits choose at each step of the way down to one,
//! by the numbers of the class, each structure with the same share (after Flajolet, Zimmermann and Van Cutsem, 1994).
#![tactic(auto)]

mod copies;
mod counts;
mod fault;
mod laws;
mod lengths;
mod making;
mod missing;
mod place;
mod power_sets;

pub use copies::{Copies, pick_copies, push_copies};
pub use counts::{pick_argument, pick_count};
pub use fault::StepFault;
pub use laws::draws_are_fair;
pub use lengths::{first_node, pick_split};
pub use making::{alternative, contained, named};
pub use missing::Lists;
pub use power_sets::first_power_set;
