//! Devices: the trait that every make answers by, and the makes.
#![tactic(auto)]

mod device;
mod joined;
mod latency_limit;
mod table_device;

pub use device::{Device, Fault, Part, Refusal};
pub use joined::{Joined, Rail};
pub use latency_limit::{LatencyLimit, deepest_within};
pub use table_device::{BadRows, TableDevice};
