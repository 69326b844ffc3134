use acl_text::{Memory, Place};
use acl_words::{Lines, Stretch};
use std::alloc::Global;

static LINES: [(u32, u32, &[u8]); 4] = [(0, 1, b"a b"), (0, 2, b""), (1, 3, b"c"), (0, 3, b"d")];

fn pushed(alloc: Global) -> Result<Lines, Memory> {
    let mut lines = Lines::new(alloc);
    for (file, line, text) in &LINES {
        let place = Place {
            file: *file,
            line: *line,
        };
        lines.push(place, text)?;
    }
    Ok(lines)
}

fn are_in_stretches(lines: &Lines) -> bool {
    let stretches = [
        Stretch {
            file: 0,
            first: 1,
            count: 2,
        },
        Stretch {
            file: 1,
            first: 3,
            count: 1,
        },
        Stretch {
            file: 0,
            first: 3,
            count: 1,
        },
    ];
    lines.text() == b"a b\n\nc\nd\n".as_slice() && lines.stretches() == stretches.as_slice()
}

fn two_files_are_in_stretches(alloc: Global) -> Result<bool, Memory> {
    Ok(are_in_stretches(&pushed(alloc)?))
}

#[test]
fn lines_of_two_files(rt: HostRuntime) {
    assert!(rt; two_files_are_in_stretches(rt.alloc()) == Ok(true));
}
