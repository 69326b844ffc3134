use crate::options::Opt;
use acl_host::Day;
use acl_packet::Verdict;
use acl_sets::RangeSet;
use acl_text::{Bytes, Place};
use acl_words::WordBytes;

/// Some of the four platforms.
#[derive(Clone, Copy, PartialEq, Eq)]
pub struct Platforms {
    pub cisco: bool,
    pub juniper: bool,
    pub iptables: bool,
    pub nftables: bool,
}

ghost use Rattle.std.proofs.Props.{props};
ghost use Rattle.acl_terms.specs.Sets.{by_field};
ghost use Rattle.acl_terms.specs.Soundness.{IsSoundTerm, normal-prop, one-number-prop};

/// A term whose words stand for numbers.
///
/// `src4` to `dst6` are the addresses of a family, less the excluded ones. `addr4` and `addr6` are those of
/// `address::`, of which a packet has one at least, as its source or its destination; `ports` are those of `port::`
/// likewise. These, `protos`, `sports`, `dports`, `itypes` and `icodes` are all numbers where none are named.
/// `addr_named`, `dport_named` and `port_named` say that `address::`, `destination-port::` and `port::` are written. `only` has the
/// platforms of `platform::`, where it is written, and `never` those of `platform-exclude::`.
pub struct Term {
    pub name: WordBytes,
    pub place: Place,
    pub note: Bytes,
    // A set begins at a multiple of 16 bytes. The small fields stand where they leave no bytes free.
    pub never: Platforms,
    pub addr_named: bool,
    pub dport_named: bool,
    pub port_named: bool,
    pub log: bool,
    pub src4: RangeSet,
    pub src6: RangeSet,
    pub dst4: RangeSet,
    pub dst6: RangeSet,
    pub addr4: RangeSet,
    pub addr6: RangeSet,
    pub protos: RangeSet,
    pub sports: RangeSet,
    pub dports: RangeSet,
    pub ports: RangeSet,
    pub itypes: RangeSet,
    pub icodes: RangeSet,
    pub expires: Option<Day>,
    pub only: Option<Platforms>,
    pub option: Opt,
    pub verdict: Verdict,
    pub ghost sound: { IsSoundTerm name note src4 src6 dst4 dst6 addr4 addr6 addr_named
        (by_field protos sports dports itypes icodes) dport_named ports port_named option verdict } by { Prim.hlevel (props, normal-prop, one-number-prop) },
}

// Where a term is let go, that is one step, whatever it holds.
impl Drop for Term {
    fn drop(self) {
        let Term {
            name,
            place: _,
            note,
            never: _,
            addr_named: _,
            dport_named: _,
            port_named: _,
            log: _,
            src4,
            src6,
            dst4,
            dst6,
            addr4,
            addr6,
            protos,
            sports,
            dports,
            ports,
            itypes,
            icodes,
            expires: _,
            only: _,
            option: _,
            verdict: _,
        } = self;
        drop(name);
        drop(note);
        drop(src4);
        drop(src6);
        drop(dst4);
        drop(dst6);
        drop(addr4);
        drop(addr6);
        drop(protos);
        drop(sports);
        drop(dports);
        drop(ports);
        drop(itypes);
        drop(icodes);
    }
}
