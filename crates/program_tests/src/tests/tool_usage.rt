use crate::tests::runs::NONE;
use crate::tests::tool_runs::{Case, leaves};

// Words that are no command line of acltool.
static WRONG: [&str; 26] = [
    "",
    " list",
    " --policy_file p --definitions_directory d",
    " Dead --policy_file p --definitions_directory d",
    " dead dead --policy_file p --definitions_directory d",
    " dead --policy_file p",
    " dead --definitions_directory d",
    " dead --policy_file= --definitions_directory d",
    " dead --policy_file p --definitions_directory=",
    " dead --policy_file p/ --definitions_directory d",
    " dead --policy_file p --definitions_directory d --date 2026-02-30",
    " dead --policy_file p --definitions_directory d --first_number 1",
    " dead --policy_file p --definitions_directory d --family inet",
    " speedway --policy_file p --definitions_directory d",
    " speedway --policy_file p --definitions_directory d --family mixed",
    " standard --policy_file p --definitions_directory d",
    " standard --policy_file p --definitions_directory d --first_number 0",
    " standard --policy_file p --definitions_directory d --first_number 100",
    " standard --policy_file p --definitions_directory d --first_number 256",
    " standard --policy_file p --definitions_directory d --first_number 01",
    " standard --policy_file p --definitions_directory d --first_number +1",
    " standard --policy_file p --definitions_directory d --first_number=-1",
    " standard --policy_file p --definitions_directory d --first_number=",
    " standard --policy_file p --definitions_directory d --first_number 1 --first_number 1",
    " standard --policy_file p/ --definitions_directory d --first_number 1",
    " standard --policy_file p --definitions_directory d --first_number 1 --date 2026-1-1",
];

#[test]
fn other_words_are_no_command_line(rt: HostRuntime) {
    for words in &WRONG {
        let case = Case {
            words: *words,
            policy: b"",
            status: 2,
            out: b"",
            err: b"usage: acltool COMMAND OPTIONS\n",
        };
        assert!(rt; leaves(rt.alloc(), &case, &NONE) == Ok(true), "{words}");
    }
}
