ghost use Rattle.std.specs.Prelude.{◌≡◌, [], IfNone, IfOk, OnOk, false};
ghost use Rattle.acl_packet.specs.Decimals.{number_in};
ghost use Rattle.acl_text.specs.PortRanges.{ports_in};
ghost use Rattle.nft_lang.specs.ReadingSteps.{item_in, up_to};
ghost use Rattle.nft_lang.specs.StartSteps.{address_step, are_distinct_starts, has_distinct_starts, next_behind, no_starts, start_step, starts_in, step_as, with_address_start, with_next, with_start};
ghost use Rattle.nft_lang.specs.ValiditySteps.{is_item};

use crate::rule_drafts::{Next, Rooms, in_set, next_of, nfproto_of, up_to};
use acl_packet::{Families, Family, Prefix};
use acl_rows::{End, RowWords, are_distinct};
use acl_text::{Memory, read_ports, read_spelled_prefix, read_u8};
use std::alloc::Global;
use std::marker::Model;

// A text of 16 MB has room for about as many prefixes that all begin at other addresses: with its space a word takes 12 bytes
// and more, but for the half a million shortest, which take 11.
const MOST_STARTS: usize = 1_450_000;

// There is room from the start, since what grows may be held twice for a while; of room that is not used no memory is taken.
// It is 32 MB, so that the C library gives it back when it is let go, and keeps to that for smaller pieces.
const ROOM_OF_STARTS: usize = 1 << 21;

/// How many prefixes the sets of the words' rule have. `None` where the words are seen to be those of no valid item, before
/// what they say is held.
pub(crate) fn rooms_of(
    alloc: Global,
    families: Families,
    words: RowWords<'_>,
) -> Result<Option<Rooms>, Memory>
    ensures { IfOk result (λ o. IfNone o (is_item families (item_in families words.entry) ≡ false)) }
{
    if words.begins_with(b"#") {
        return Ok(Some(Rooms::none()));
    }
    let draft = starts_of(alloc, families, words)?;
    let rooms = Rooms {
        src: draft.src.len(),
        dst: draft.dst.len(),
    };
    if has_distinct_starts(draft) {
        Ok(Some(rooms))
    } else {
        Ok(None)
    }
}

// Whether no two prefixes of a set begin at one address, as far as they are looked at. Two that do overlap.
fn has_distinct_starts(draft: StartDraft) -> bool
    ensures { result ≡ has_distinct_starts draft }
{
    draft.src.are_distinct() && draft.dst.are_distinct()
}

#[tactic(auto, unfolding(crate::specs::StartSteps::starts_in))]
fn starts_of(alloc: Global, families: Families, words: RowWords<'_>) -> Result<StartDraft, Memory>
    ensures { IfOk result (λ d. d ≡ starts_in families words.entry) }
{
    let mut draft = StartDraft::new(alloc, families.first_family())?;
    let mut rest = words;
    while let Some(word) = rest.next() {
        draft.take_word(word)?;
    }
    Ok(draft)
}

// The first addresses of prefixes, of so many at most.
#[derive(Drop)]
struct Starts {
    items: Vec<u128>,
}

impl Model for Starts {
    ghost use Rattle.std.specs.Prelude.{ℕ, List};

    ghost Value = { List ℕ };

    ghost view = { λ s. s.items.items };
}

impl Starts {
    fn new(alloc: Global) -> Result<Starts, Memory>
        ensures { IfOk result (λ starts. starts ≡ []) }
    {
        Ok(Starts {
            items: Vec::with_capacity(alloc, ROOM_OF_STARTS)?,
        })
    }

    fn len(&self) -> usize {
        self.items.len()
    }

    #[tactic(auto, unfolding(crate::specs::StartSteps::with_start, crate::specs::StartSteps::most_starts))]
    fn push(&mut self, start: u128) -> Result<(), Memory>
        ensures { OnOk result (self.new ≡ with_start self.old start) }
    {
        if self.items.len() < MOST_STARTS {
            self.items.push(start)?;
        }
        Ok(())
    }

    fn are_distinct(self) -> bool
        ensures { result ≡ are_distinct_starts self }
    {
        are_distinct(self.items)
    }
}

// What has been read of a rule's words: where the prefixes of its sets begin, and how the next word is read.
#[derive(Drop)]
struct StartDraft {
    family: Family,
    next: Next,
    src: Starts,
    dst: Starts,
}

impl StartDraft {
    fn new(alloc: Global, family: Family) -> Result<StartDraft, Memory>
        ensures { IfOk result (λ d. d ≡ no_starts family) }
    {
        Ok(StartDraft {
            family,
            next: Next::Keyword,
            src: Starts::new(alloc)?,
            dst: Starts::new(alloc)?,
        })
    }

    #[tactic(auto, unfolding(crate::specs::StartSteps::step_as))]
    fn take_word(&mut self, word: &[u8]) -> Result<(), Memory>
        ensures { OnOk result (self.new ≡ start_step self.old word.now) }
    {
        match self.next {
            Next::Addresses(end) => return self.take_address(end, word),
            Next::PacketFamily => {
                self.family = nfproto_of(word);
                self.next = Next::Keyword;
            }
            Next::Keyword => self.next = next_of(word),
            Next::Protocol => self.next = Next::Keyword,
            Next::Ports(end) => self.next = behind_ports(end, word),
            Next::Types => self.next = behind_number(254, Next::Types, word),
            Next::Codes => self.next = behind_number(255, Next::Codes, word),
        }
        Ok(())
    }

    #[tactic(auto, unfolding(crate::specs::StartSteps::address_step))]
    fn take_address(&mut self, end: End, word: &[u8]) -> Result<(), Memory>
        ensures { OnOk result (self.new ≡ address_step self.old end word.now) }
    {
        match read_spelled_prefix(self.family, up_to(word, b',')) {
            Some(prefix) => self.push_address(end, &prefix),
            None => {
                self.next = in_set(Next::Addresses(end), word);
                Ok(())
            }
        }
    }

    fn push_address(&mut self, end: End, prefix: &Prefix) -> Result<(), Memory>
        ensures { OnOk result (self.new
            ≡ with_next (Next.Addresses end) (with_address_start end prefix.now self.old)) }
    {
        self.next = Next::Addresses(end);
        match end {
            End::Source => self.src.push(prefix.first),
            End::Destination => self.dst.push(prefix.first),
        }
    }
}

fn behind_ports(end: End, word: &[u8]) -> Next
    ensures { result ≡ next_behind (ports_in 45 (up_to 44 word.now)) (Next.Ports end) word.now }
{
    let next = Next::Ports(end);
    match read_ports(up_to(word, b','), b'-') {
        Some(_) => next,
        None => in_set(next, word),
    }
}

fn behind_number(most: u8, next: Next, word: &[u8]) -> Next
    ensures { result ≡ next_behind (number_in most (up_to 44 word.now)) next word.now }
{
    match read_u8(up_to(word, b','), most) {
        Some(_) => next,
        None => in_set(next, word),
    }
}
