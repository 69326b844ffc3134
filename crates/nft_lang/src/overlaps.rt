ghost use Rattle.std.specs.Prelude.{◌≡◌, ◌≤◌, ℕ, Bool, true, IfOk};
ghost use Rattle.std.specs.List.{list_all, range_with_len};
ghost use Rattle.acl_rows.specs.ApartSteps.{are_apart, are_rising, is_below_first, TellsApart};
ghost use Rattle.acl_rows.specs.PortRangeSteps.{is_port_range};
ghost use Rattle.nft_lang.specs.Documents.{ports_overlap, prefixes_overlap};
ghost use Rattle.nft_lang.specs.PlaceSteps.{is_below_at, start_at};
ghost use Rattle.nft_lang.specs.ValiditySteps.{ports_below, prefix_below};

use acl_packet::Prefix;
use acl_text::Memory;
use std::alloc::Global;

/// Elements of a set, which overlap where they have a value in common. Sorted by where they start,
/// no two overlap where each is below the next one.
pub(crate) trait Element {
    ghost overlap: { Self → Self → Bool };

    ghost below: { Self → Self → Bool };

    ghost start: { Self → ℕ };

    ghost is_sound: { Self → Bool };

    /// The first value that it has.
    fn start(&self) -> u128
        ensures { result ≡ start self.now };

    /// Whether all of its values are below the first one of the other.
    fn is_below(&self, other: &Self) -> bool
        ensures { result ≡ below self.now other.now };

    /// A law: of elements that are sorted by their starts, neighbours tell.
    fn neighbours_tell()
        ensures { TellsApart overlap below (λ x y. start x ≤ start y) is_sound };
}

impl Element for Prefix {
    ghost overlap = { prefixes_overlap };

    ghost below = { prefix_below };

    ghost start = { λ p. p.first };

    ghost is_sound = { λ p. true };

    fn start(&self) -> u128 {
        self.first
    }

    fn is_below(&self, other: &Prefix) -> bool {
        self.first < other.first && !self.contains(other.first)
    }

    #[tactic(auto, using(crate::proofs::OverlapLaws::prefixes_tell))]
    fn neighbours_tell() {}
}

impl Element for (u16, u16) {
    ghost overlap = { ports_overlap };

    ghost below = { ports_below };

    ghost start = { λ ports. ports.0 };

    ghost is_sound = { is_port_range };

    fn start(&self) -> u128 {
        u128::from(self.0)
    }

    fn is_below(&self, other: &(u16, u16)) -> bool {
        self.1 < other.0 && other.0 <= other.1
    }

    #[tactic(auto, using(crate::proofs::OverlapLaws::ports_tell))]
    fn neighbours_tell() {}
}

/// Whether no two of the elements overlap. Their places are sorted, which take four bytes each.
pub(crate) fn are_apart<T: Element>(alloc: Global, elements: &[T]) -> Result<bool, Memory>
    requires { list_all T.is_sound elements.now ≡ true }
    ensures { IfOk result (λ b. b ≡ are_apart T.overlap elements.now) }
{
    T::neighbours_tell();
    let mut sorted = places(alloc, elements.len())?;
    sorted.sort_unstable_by_key(|place| start_at(elements, *place));
    Ok(are_rising(elements, sorted.as_slice()))
}

// More elements than have places of 32 bits find no memory.
fn places(alloc: Global, count: usize) -> Result<Vec<u32>, Memory>
    ensures { IfOk result (λ v. v.items ≡ range_with_len 0 count) }
{
    let Ok(end) = u32::try_from(count) else {
        return Err(Memory);
    };
    let mut places = Vec::with_capacity(alloc, count)?;
    for place in 0..end {
        places.push(place)?;
    }
    Ok(places)
}

fn start_at<T: Element>(elements: &[T], place: u32) -> u128
    ensures { result ≡ start_at T.start elements.now place }
{
    match elements.get(place as usize) {
        Some(element) => element.start(),
        None => 0,
    }
}

// Whether each element is below the next one, by their places.
#[tactic(auto, unfolding(acl_rows::specs::ApartSteps::are_rising))]
fn are_rising<T: Element>(elements: &[T], places: &[u32]) -> bool
    ensures { result ≡ are_rising (is_below_at T.below elements.now) places.now }
{
    for (i, place) in places.iter().enumerate() {
        if !is_below_first(elements, *place, &places[i + 1..]) {
            return false;
        }
    }
    true
}

fn is_below_first<T: Element>(elements: &[T], place: u32, others: &[u32]) -> bool
    ensures { result ≡ is_below_first (is_below_at T.below elements.now) place others.now }
{
    match others {
        [] => true,
        [next, ..] => is_below_at(elements, place, *next),
    }
}

fn is_below_at<T: Element>(elements: &[T], place: u32, other: u32) -> bool
    ensures { result ≡ is_below_at T.below elements.now place other }
{
    match (elements.get(place as usize), elements.get(other as usize)) {
        (Some(element), Some(next)) => element.is_below(next),
        _ => false,
    }
}
