//! Naming files: definitions of networks and services, and what each name reaches.
#![tactic(auto)]

mod bases;
mod byte_runs;
mod checking;
mod front_words;
mod fronts;
mod item_words;
mod laws;
mod line_parts;
mod linking;
mod links;
mod lookups;
mod marking;
mod marks;
mod name_keys;
mod name_texts;
mod naming_files;
mod naming_items;
mod ranking;
mod reaching;
mod rows;
mod tables;

pub use bases::{
    Base, Checked, add_networks, add_networks_once, begin_networks, check_base, networks_of,
    ports_near, ports_of, read_networks, read_services,
};
pub use item_words::NamingKind;
pub use laws::{
    addresses_are_computed, ordered_ports_are_some, port_order_is_kept, ports_are_computed,
    reach_is_computed,
};
pub use lookups::Lookup;
pub use marks::Marks;
