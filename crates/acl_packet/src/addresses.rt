ghost use Rattle.std.specs.Prelude.{◌≡◌, ◌+◌, ◌^◌, ◌≤◌, nat_lt};
ghost use Rattle.acl_packet.specs.AddressLists.{any_has};

/// The family of an address: IPv4 of 32 bits (RFC 791), or IPv6 of 128 bits (RFC 4291).
#[derive(Clone, Copy, Debug, PartialEq, Eq)]
pub enum Family {
    V4,
    V6,
}

impl Family {
    ghost use Rattle.acl_packet.specs.Addresses.{top_address, width_of};
    ghost use Rattle.acl_packet.specs.Packets.{foreign_of, icmp_of};

    /// The number of bits of an address.
    pub fn width(self) -> u8
        ensures { result ≡ width_of self }
    {
        match self {
            Family::V4 => 32,
            Family::V6 => 128,
        }
    }

    /// The highest address, as a number.
    pub fn top_address(self) -> u128
        ensures { result ≡ top_address self }
    {
        match self {
            Family::V4 => 0xffff_ffff,
            Family::V6 => u128::MAX,
        }
    }

    /// The number of the family's ICMP among protocols: 1 (RFC 792), or 58 (RFC 4443).
    pub fn icmp_number(self) -> u8
        ensures { result ≡ icmp_of self }
    {
        match self {
            Family::V4 => 1,
            Family::V6 => 58,
        }
    }

    /// The number of the other family's ICMP among protocols: no packet of this family is of it.
    pub fn foreign_number(self) -> u8
        ensures { result ≡ foreign_of self }
    {
        match self {
            Family::V4 => 58,
            Family::V6 => 1,
        }
    }
}

/// The families that a filter is for.
#[derive(Clone, Copy, PartialEq, Eq)]
pub enum Families {
    Inet,
    Inet6,
    Mixed,
}

impl Families {
    ghost use Rattle.acl_packet.specs.Addresses.{covers, first_family};

    /// Whether the family is one of them.
    pub fn covers(self, family: Family) -> bool
        ensures { result ≡ covers self family }
    {
        match self {
            Families::Inet => family == Family::V4,
            Families::Inet6 => family == Family::V6,
            Families::Mixed => true,
        }
    }

    /// The family of a filter that has one; IPv4 for a filter of both.
    pub fn first_family(self) -> Family
        ensures { result ≡ first_family self }
    {
        match self {
            Families::Inet | Families::Mixed => Family::V4,
            Families::Inet6 => Family::V6,
        }
    }
}

/// A block of addresses that begin with the same bits (RFC 4632 section 3.1, RFC 4291 section 2.3).
///
/// `first` is its lowest address as a number, and `len` the number of bits that are the same. It is a
/// prefix of its family where `len` is at most the family's width, `first` is an address, and the bits of
/// `first` behind the first `len` are 0: the fact `IsPrefix`.
#[derive(Clone, Copy, PartialEq, Eq)]
pub struct Prefix {
    pub first: u128,
    pub len: u8,
    pub family: Family,
}

impl Prefix {
    ghost use Rattle.acl_packet.specs.Addresses.{IsPrefix, everywhere, has_address, size_of};

    /// The prefix of length 0: all addresses of the family.
    pub fn everywhere(family: Family) -> Prefix
        ensures { result ≡ everywhere family }
    {
        Prefix {
            first: 0,
            len: 0,
            family,
        }
    }

    /// Whether the address, as a number, lies in the prefix: it is one of the addresses from the first
    /// on, as many as the bits behind the length give.
    pub fn contains(&self, address: u128) -> bool
        ensures { result ≡ has_address self.now address }
    {
        let free = self.family.width().saturating_sub(self.len);
        self.first <= address && is_below_power(address - self.first, free)
    }

    /// The highest address of the prefix, as a number.
    pub fn last(&self) -> u128
        requires { IsPrefix self.now }
        ensures { result + 1 ≡ self.now.first + size_of self.now }
    {
        let free = self.family.width() - self.len;
        if free == 128 {
            u128::MAX
        } else {
            self.first + ((1u128 << free) - 1)
        }
    }
}

/// Whether the address, as a number, lies in one of the prefixes.
pub fn any_has(prefixes: &[Prefix], address: u128) -> bool
    ensures { result ≡ any_has prefixes.now address }
{
    prefixes.iter().any(|prefix| prefix.contains(address))
}

// Whether the number has at most so many bits.
fn is_below_power(number: u128, bits: u8) -> bool
    requires { bits ≤ 128 }
    ensures { result ≡ nat_lt number (2 ^ bits) }
{
    bits == 128 || number < 2u128.pow(u32::from(bits))
}
