use acl_packet::{Conn, Family, Outcome, Packet, Verdict, is_packet};
use acl_rows::{Language, Scan, SectionVerdict, find_section, outcome, read_document, sections};
use acl_text::Memory;
use std::alloc::Global;
use std::process::Abort;

pub(crate) const ACCEPTED: Outcome = Outcome {
    verdict: Verdict::Accept,
    logged: false,
};

pub(crate) const LOGGED: Outcome = Outcome {
    logged: true,
    ..ACCEPTED
};

pub(crate) const DENIED: Outcome = Outcome {
    verdict: Verdict::Deny,
    ..ACCEPTED
};

pub(crate) const REJECTED: Outcome = Outcome {
    verdict: Verdict::Reject,
    ..ACCEPTED
};

pub(crate) const RESET: Outcome = Outcome {
    verdict: Verdict::Reset,
    ..ACCEPTED
};

// A packet of TCP from 192.0.2.1 to 192.0.2.10; of IPv6, between the like addresses.
pub(crate) const PACKET: Packet = Packet {
    family: Family::V4,
    src: 0xc000_0201,
    dst: 0xc000_020a,
    proto: 6,
    sport: 0,
    dport: 0,
    flags: 0,
    itype: 0,
    icode: 0,
    conn: Conn::New,
};

// Of a connection that is known, to port 80; and the first of one.
pub(crate) const ACK: Packet = Packet {
    dport: 80,
    flags: 16,
    ..PACKET
};

pub(crate) const SYN: Packet = Packet { flags: 2, ..PACKET };

// A type of ICMP that asks for an answer.
pub(crate) const PING: Packet = Packet {
    proto: 1,
    itype: 8,
    ..PACKET
};

pub(crate) const PACKET_OF_SIX: Packet = Packet {
    family: Family::V6,
    ..PACKET
};

// A neighbour is looked for.
pub(crate) const SOLICITATION: Packet = Packet {
    proto: 58,
    itype: 135,
    ..PACKET_OF_SIX
};

// What stands in a document, and what is put in its place.
pub(crate) type Change = (&'static str, &'static str);

// A text, the place of a section, a packet, and what the section does to it.
pub(crate) type Walk = (&'static str, usize, Packet, Option<Outcome>);

fn sections_of<L: Language>(alloc: Global, text: &str) -> Result<Option<usize>, Memory> {
    match read_document::<L>(alloc, text.as_bytes())? {
        Some(doc) => Ok(Some(sections(&doc))),
        None => Ok(None),
    }
}

// Whether the changed document is another text, which is read or not.
fn is_changed<L: Language>(
    alloc: Global,
    document: &str,
    change: &Change,
    is_read: bool,
) -> Result<bool, Memory> {
    let text = document.replace(alloc, change.0, change.1)?;
    let found = sections_of::<L>(alloc, text.as_str())?;
    Ok(text.as_str() != document && found.is_some() == is_read)
}

// The document is one section, and so is what no text is; each change is read, or each is refused.
pub(crate) fn expect_changes<L: Language>(
    rt: &impl Abort,
    alloc: Global,
    document: &str,
    changes: &[Change],
    is_read: bool,
) {
    assert!(rt; sections_of::<L>(alloc, document) == Ok(Some(1)));
    assert!(rt; sections_of::<L>(alloc, "") == Ok(Some(0)));
    for change in changes {
        assert!(rt;
            is_changed::<L>(alloc, document, change, is_read) == Ok(true),
            "{} in place of {}",
            change.1,
            change.0
        );
    }
}

// What the text's section does to the packet. `None` also for what is no text and no packet.
fn outcome_in<L: Language>(
    alloc: Global,
    text: &str,
    which: usize,
    packet: &Packet,
) -> Result<Option<Outcome>, Memory> {
    match read_document::<L>(alloc, text.as_bytes())? {
        Some(doc) if is_packet(packet) => Ok(outcome::<L>(&doc, which, packet)),
        _ => Ok(None),
    }
}

pub(crate) fn expect_walks<L: Language>(rt: &impl Abort, alloc: Global, walks: &[Walk]) {
    for (place, (text, which, packet, wanted)) in walks.iter().enumerate() {
        let found = outcome_in::<L>(alloc, text, *which, packet);
        assert!(rt; found == Ok(*wanted), "walk {place}");
    }
}

// The same, where no document is held. `None` also for what is no text, no section and no packet.
fn verdict_in<L: Scan>(
    alloc: Global,
    text: &str,
    which: usize,
    packet: &Packet,
) -> Result<Option<SectionVerdict>, Memory> {
    if is_packet(packet) {
        Ok(Some(find_section::<L>(alloc, text.as_bytes(), which, packet)?))
    } else {
        Ok(None)
    }
}

// Whether the changed document is one.
fn is_scanned<L: Scan>(alloc: Global, document: &str, change: &Change) -> Result<bool, Memory> {
    let text = document.replace(alloc, change.0, change.1)?;
    let found = verdict_in::<L>(alloc, text.as_str(), 0, &PACKET)?;
    Ok(found != Some(SectionVerdict::NoDocument))
}

fn expect_scanned_changes<L: Scan>(
    rt: &impl Abort,
    alloc: Global,
    document: &str,
    changes: &[Change],
    is_read: bool,
) {
    for change in changes {
        assert!(rt;
            is_scanned::<L>(alloc, document, change) == Ok(is_read),
            "{} in place of {}",
            change.1,
            change.0
        );
    }
}

fn decision_in<L: Scan>(
    alloc: Global,
    text: &str,
    which: usize,
    packet: &Packet,
) -> Result<Option<Outcome>, Memory> {
    match verdict_in::<L>(alloc, text, which, packet)? {
        Some(SectionVerdict::Decides(outcome)) => Ok(Some(outcome)),
        _ => Ok(None),
    }
}

fn expect_scanned_walks<L: Scan>(rt: &impl Abort, alloc: Global, walks: &[Walk]) {
    for (place, (text, which, packet, wanted)) in walks.iter().enumerate() {
        let decided = decision_in::<L>(alloc, text, *which, packet);
        assert!(rt; decided == Ok(*wanted), "walk {place}");
    }
}

// Texts are documents, are none, and decide packets where no document is held as where one is.
pub(crate) fn expect_scans<L: Scan>(
    rt: &impl Abort,
    alloc: Global,
    document: &str,
    read: &[Change],
    refused: &[Change],
    walks: &[Walk],
) {
    expect_scanned_changes::<L>(rt, alloc, document, read, true);
    expect_scanned_changes::<L>(rt, alloc, document, refused, false);
    expect_scanned_walks::<L>(rt, alloc, walks);
}
