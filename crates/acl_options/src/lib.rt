//! The words of the command lines of all programs and what they ask for, and packets as text.
#![tactic(auto)]

mod check_commands;
mod commands;
mod inputs;
mod laws;
mod options;
mod packet_laws;
mod packet_putting;
mod packet_reading;
mod tool_commands;
mod workload_words;

pub use check_commands::{CheckCommand, FileSection, read_check_command};
pub use inputs::Inputs;
pub use laws::{
    check_requests_are_asked_for, options_are_asked_for, options_are_one, the_commands_are_simple,
    tool_requests_are_asked_for,
};
pub use options::{Options, read_options};
pub use packet_laws::{packets_are_read_again, texts_have_one_packet};
pub use packet_putting::put_packet;
pub use packet_reading::read_packet;
pub use tool_commands::{ToolCommand, read_tool_command};
pub use workload_words::read_workload;
