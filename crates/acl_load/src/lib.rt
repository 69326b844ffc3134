//! Loading: the naming files of a folder, and a policy over them, from files to resolved terms or the first fault.
#![tactic(auto)]

mod adding;
mod fault_lines;
mod laws;
mod load_faults;
mod loading;
mod naming_paths;
mod policy_loading;
mod policy_texts;
mod resolved_policies;
mod slips;

pub use fault_lines::put_fault;
pub use laws::{answers_are_one, answers_are_there, definitions_are_there, loaded_policies_stand};
pub use load_faults::LoadFault;
pub use loading::load_definitions;
pub use policy_loading::{Loaded, TermLists, Terms, load};
pub use policy_texts::{label_at, policy_fault};
pub use resolved_policies::{ResolvedPolicy, TargetLists, settle};
