ghost use Rattle.std.specs.Prelude.{◌≡◌, ℕ, ◌^◌, ◌<◌, ◌≤◌, List, Some, decimal};
ghost use Rattle.acl_packet.specs.declared.addresses.Family.{Family};
ghost use Rattle.acl_packet.specs.declared.addresses.Prefix.{Prefix};
ghost use Rattle.acl_packet.specs.Addresses.{width_of, IsPrefix};
ghost use Rattle.acl_packet.specs.Decimals.{IsNumber, number_in};
ghost use Rattle.acl_text.specs.Ipv6.{IsLongest, longest_run};
ghost use Rattle.acl_text.specs.AddressTexts.{address_text, address_in, IsPrefixText, prefix_in, prefix_text, spelled_prefix_in};

/// What `put_number` puts of a number is read as that number.
pub fn numbers_are_read_again()
    ensures { (most n : ℕ) → n < 2 ^ 128 → n ≤ most → number_in most (decimal n) ≡ Some n }
{}

/// A text is that of one number at most.
pub fn texts_have_one_number()
    ensures { (bs : List ℕ) (m n : ℕ) → IsNumber bs m → IsNumber bs n → m ≡ n }
{}

/// What `put_address` puts of an address is read as that address.
pub fn addresses_are_read_again()
    ensures { (f : Family) (n : ℕ) → n < 2 ^ width_of f → address_in f (address_text f n) ≡ Some n }
{}

/// The run of zeros for which `put_address` puts `::` is the longest one, and the first among equals.
pub fn longest_runs_are_found()
    ensures { (gs : List ℕ) → IsLongest gs (longest_run gs) }
{}

/// What `put_prefix` puts of a prefix is read as that prefix, by both readers.
pub fn prefixes_are_read_again()
    ensures any { (p : Prefix) → IsPrefix p → prefix_in (prefix_text p) ≡ Some p }
    ensures spelled { (p : Prefix) → IsPrefix p
        → spelled_prefix_in p.family (prefix_text p) ≡ Some p }
{}

/// A text is that of one prefix at most.
pub fn texts_have_one_prefix()
    ensures { (bs : List ℕ) (p q : Prefix) → IsPrefixText bs p → IsPrefixText bs q → p ≡ q }
{}
