use acl_text::{Memory, SeenNames, is_filter_name, is_name, is_name_byte, is_safe_text, note};
use std::alloc::Global;

// A text, and whether it is a name, a name of a filter, and safe.
static NAMES: [(&str, bool, bool, bool); 8] = [
    ("edge-in", true, true, true),
    ("4_edge", true, false, true),
    ("not ours.", false, false, true),
    ("not  ours", false, false, false),
    (" ours", false, false, false),
    ("ours ", false, false, false),
    ("it's", false, false, false),
    ("", false, false, false),
];

#[test]
fn tells_names_and_texts(rt: HostRuntime) {
    for (text, name, filter, safe) in &NAMES {
        let bytes = text.as_bytes();
        assert!(rt; is_name(bytes) == *name, "at {text}");
        assert!(rt; is_filter_name(bytes) == *filter, "at {text}");
        assert!(rt; is_safe_text(bytes) == *safe, "at {text}");
    }
    assert!(rt; is_name_byte(b'_') && !is_name_byte(b' '));
}

static NOTES: [(&str, &str); 7] = [
    ("", ""),
    (" \t\r\n ", ""),
    (
        "  Not ours. \nAsk\tthe\r\nNOC: x,y-z_1 ",
        "Not ours. Ask the NOC: x,y-z_1",
    ),
    (
        "*/ } term x { then accept; } /*",
        "__ _ term x _ then accept_ _ __",
    ),
    ("caf\u{e9}\u{b}\"#'", "caf______"),
    // a space at the cut goes
    (
        "1234567890123456789012345678901234567890123456789012345678901234567890123456789 b",
        "1234567890123456789012345678901234567890123456789012345678901234567890123456789",
    ),
    (
        "1234567890123456789012345678901234567890123456789012345678901234567890123456789012",
        "12345678901234567890123456789012345678901234567890123456789012345678901234567890",
    ),
];

fn is_noted_as(alloc: Global, comments: &str, safe: &str) -> Result<bool, Memory> {
    Ok(note(alloc, comments.as_bytes())?.as_slice() == safe.as_bytes())
}

#[test]
fn makes_comments_safe(rt: HostRuntime) {
    for (comments, safe) in &NOTES {
        assert!(rt;
            is_noted_as(rt.alloc(), comments, safe) == Ok(true),
            "at {comments}"
        );
    }
}

#[test]
fn remembers_names_that_were_seen(rt: HostRuntime) {
    let mut seen = SeenNames::new();
    assert!(rt; !seen.may_have("edge-in".as_bytes()));
    seen.add("edge-in".as_bytes());
    assert!(rt; seen.may_have("edge-in".as_bytes()));
    assert!(rt; !seen.may_have("edge-out".as_bytes()));
}
