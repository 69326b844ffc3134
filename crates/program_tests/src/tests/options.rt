use crate::tests::runs::words_of;
use acl_options::{Options, read_options, read_workload};
use acl_text::Memory;
use std::alloc::Global;

// What clap's documentation says of an option that takes one value, of a flag, and of the words between them. The answer
// has the policy's path, the folder of the naming files, the folder for the filters, the day since 1970-01-01 as GNU date
// counts it, the weeks, and whether the flag is set.
static LINES: [(&str, &str); 38] = [
    (
        " --policy_file a.pol --definitions_directory def --output_directory out",
        "a.pol def out today 2 false",
    ),
    (
        " --output_directory=out --policy_file=a.pol --definitions_directory=def",
        "a.pol def out today 2 false",
    ),
    (
        " --policy_file==/a --definitions_directory def/ --output_directory / --",
        "=/a def/ / today 2 false",
    ),
    (
        " --policy_file - --definitions_directory=-d --output_directory=--",
        "- -d -- today 2 false",
    ),
    ("", "none"),
    (" ", "none"),
    (
        " --definitions_directory def --output_directory out",
        "none",
    ),
    (" --policy_file a.pol --output_directory out", "none"),
    (" --policy_file a.pol --definitions_directory def", "none"),
    (
        " --policy_file a --policy_file a --definitions_directory def --output_directory out",
        "none",
    ),
    (
        " --policy_file a --definitions_directory d --definitions_directory d --output_directory out",
        "none",
    ),
    (
        " --policy_file a --definitions_directory d --output_directory o --output_directory=o",
        "none",
    ),
    (
        " --policy_file= --definitions_directory def --output_directory out",
        "none",
    ),
    (
        " --policy_file  --definitions_directory def --output_directory out",
        "none",
    ),
    (
        " --policy_file a.pol --definitions_directory= --output_directory out",
        "none",
    ),
    (
        " --policy_file a.pol --definitions_directory def --output_directory=",
        "none",
    ),
    (
        " --policy_file a.pol --definitions_directory def --output_directory ",
        "none",
    ),
    (
        " --policy_file pol/ --definitions_directory def --output_directory out",
        "none",
    ),
    (
        " --policy_file / --definitions_directory def --output_directory out",
        "none",
    ),
    (
        " --policy_file --definitions_directory def --output_directory out",
        "none",
    ),
    (
        " --definitions_directory def --output_directory out --policy_file",
        "none",
    ),
    (
        " --policy_file -- --definitions_directory def --output_directory out",
        "none",
    ),
    (
        " --policy_file -a --definitions_directory def --output_directory out",
        "none",
    ),
    (
        " --policy_file a.pol b.pol --definitions_directory def --output_directory out",
        "none",
    ),
    (
        " a.pol --policy_file a.pol --definitions_directory def --output_directory out",
        "none",
    ),
    (
        " -- --policy_file a.pol --definitions_directory def --output_directory out",
        "none",
    ),
    (
        " --policy_file a.pol --definitions_directory def --output_directory out -- more",
        "none",
    ),
    (
        " --policy a.pol --definitions_directory def --output_directory out",
        "none",
    ),
    (
        " --policy-file a.pol --definitions_directory def --output_directory out",
        "none",
    ),
    (
        " -policy_file a.pol --definitions_directory def --output_directory out",
        "none",
    ),
    (
        " --Policy_file a.pol --definitions_directory def --output_directory out",
        "none",
    ),
    (
        " policy_file a.pol --definitions_directory def --output_directory out",
        "none",
    ),
    (
        " --=a.pol --definitions_directory def --output_directory out",
        "none",
    ),
    (" --help", "none"),
    (" -h", "none"),
    (" help", "none"),
    (" --version", "none"),
    (" -V", "none"),
];

const PATHS: &str = " --policy_file a --definitions_directory d --output_directory o";

// Words behind those of the three paths.
static MORE: [(&str, &str); 49] = [
    ("", "a d o today 2 false"),
    (" --", "a d o today 2 false"),
    (" --date 2026-01-15", "a d o 20468 2 false"),
    (" --date=2000-02-29", "a d o 11016 2 false"),
    (" --date 0001-01-01", "a d o -719162 2 false"),
    (" --date 9999-12-31", "a d o 2932896 2 false"),
    (" --exp_info 0", "a d o today 0 false"),
    (" --exp_info=520", "a d o today 520 false"),
    (" --exp_info 3 --date 1970-01-01", "a d o 0 3 false"),
    (" --date 2026-02-30", "none"),
    (" --date 0000-01-01", "none"),
    (" --date 10000-01-01", "none"),
    (" --date 2026-1-15", "none"),
    (" --date=", "none"),
    (" --date ", "none"),
    (" --date", "none"),
    (" --date 2026-01-15 --date 2026-01-15", "none"),
    (" --date 2026-01-15 2026-01-15", "none"),
    (" --exp_info 521", "none"),
    (" --exp_info 02", "none"),
    (" --exp_info +2", "none"),
    (" --exp_info -1", "none"),
    (" --exp_info=-1", "none"),
    (" --exp_info=-0", "none"),
    (" --exp_info 2.0", "none"),
    (" --exp_info 18446744073709551618", "none"),
    (" --exp_info=", "none"),
    (" --exp_info", "none"),
    (" --exp_info 2 --exp_info 2", "none"),
    (" --exp 2", "none"),
    (" --policy_file a.pol", "none"),
    (" --help", "none"),
    (" -h", "none"),
    (" --version", "none"),
    (" -V", "none"),
    (" --workload 3", "none"),
    (" -", "none"),
    (" --shade_check", "a d o today 2 true"),
    (" --shade_check --date 2026-01-15", "a d o 20468 2 true"),
    (" --exp_info 3 --shade_check --", "a d o today 3 true"),
    (" --shade_check --shade_check", "none"),
    (" --shade_check=True", "none"),
    (" --shade_check=False", "none"),
    (" --shade_check=", "none"),
    (" --shade_check x", "none"),
    (" --shade_check True", "none"),
    (" --exp_info --shade_check", "none"),
    (" --shade-check", "none"),
    (" -- --shade_check", "none"),
];

fn shown(alloc: Global, options: &Options<'_>) -> Result<String, Memory> {
    let day = match options.date {
        Some(day) => format!(in alloc; "{}", day.number)?,
        None => String::from_str(alloc, "today")?,
    };
    Ok(format!(in alloc;
        "{} {} {} {day} {} {}",
        options.policy, options.definitions, options.output, options.exp_info, options.shade_check
    )?)
}

fn read(alloc: Global, line: &str) -> Result<String, Memory> {
    let words = words_of(alloc, line)?;
    match read_options(alloc, words.as_slice())? {
        Some(options) => shown(alloc, &options),
        None => Ok(String::from_str(alloc, "none")?),
    }
}

fn gives(alloc: Global, line: &str, options: &str) -> Result<bool, Memory> {
    Ok(read(alloc, line)?.as_str() == options)
}

#[test]
fn lines_are_read(rt: HostRuntime) {
    for (line, options) in &LINES {
        assert!(rt; gives(rt.alloc(), line, options) == Ok(true), "{line}");
    }
}

fn gives_behind_paths(alloc: Global, more: &str, options: &str) -> Result<bool, Memory> {
    let line = format!(in alloc; "{PATHS}{more}")?;
    gives(alloc, line.as_str(), options)
}

#[test]
fn words_behind_the_paths_are_read(rt: HostRuntime) {
    for (more, options) in &MORE {
        assert!(rt;
            gives_behind_paths(rt.alloc(), more, options) == Ok(true),
            "{more}"
        );
    }
}

static WORKLOADS: [(&str, Option<u32>); 22] = [
    (" --workload 1", Some(1)),
    (" --workload 2", Some(2)),
    (" --workload 1024", Some(1024)),
    (" --workload 0", None),
    (" --workload 01", None),
    (" --workload 1025", None),
    (" --workload 10240", None),
    (" --workload 18446744073709551617", None),
    (" --workload ", None),
    (" --workload", None),
    (" --workload +1", None),
    (" --workload -1", None),
    (" --workload 1.0", None),
    (" --workload 0x1", None),
    (" --workload 1 2", None),
    (" --workload 1 --workload 1", None),
    (" --workload=2", None),
    (" -workload 2", None),
    (" --Workload 2", None),
    (" 2 --workload", None),
    (" -- --workload 2", None),
    ("", None),
];

fn gives_terms(alloc: Global, line: &str, asked: Option<u32>) -> Result<bool, Memory> {
    let words = words_of(alloc, line)?;
    Ok(read_workload(words.as_slice()) == asked)
}

#[test]
fn workloads_are_read(rt: HostRuntime) {
    for (line, asked) in &WORKLOADS {
        assert!(rt; gives_terms(rt.alloc(), line, *asked) == Ok(true), "{line}");
    }
}
