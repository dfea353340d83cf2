// The commands that the drill adds to the session's; docs/DRILL.md describes them.
#![tactic(auto)]

mod acts;
mod lent;
mod numbers;
mod running;

pub use drill_broken::{SPARE_HEADERS, SPARE_INCOMING, SPARE_OUTGOING};
pub use lent::DrillLent;
pub use running::run_one;
