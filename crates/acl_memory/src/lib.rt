//! Trees, streams and clocks in memory, of which chosen calls fail, or none.
#![tactic(auto)]

mod failing;
mod fixed_clocks;
mod looking;
mod mem_files;
mod mem_names;
mod mem_sinks;
mod mem_trees;
mod paths;
mod sure_clocks;
mod sure_sinks;
mod sure_trees;

pub use failing::Op;
pub use fixed_clocks::FixedClock;
pub use mem_sinks::MemSink;
pub use mem_trees::MemTree;
pub use sure_clocks::SureClock;
pub use sure_sinks::SureSink;
pub use sure_trees::SureTree;
