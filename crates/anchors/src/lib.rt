//! Anchors: positions in a text that keep to a byte while texts come and go, found among fragments.
#![tactic(auto)]

mod before;
mod finding;
mod laws;
mod making;
mod spot;
mod standing;

pub use finding::{UnknownAnchor, compare, resolve};
pub use laws::{anchors_come_back, anchors_stay_in_order, left_before_right, order_is_total};
pub use making::anchor_at;
pub use op_model::{Anchor, Bias, PlaceFault};
