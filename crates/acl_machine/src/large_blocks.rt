use std::alloc::Global;

// As much is taken and let go: the terms of a policy with the most terms stand in less.
const LARGE: usize = 512 << 10;

/// Has the allocator keep the memory of large blocks that are let go, for those that come later.
///
/// glibc has the system map each block of 128 KiB or more, and unmap it where it is let go, so that each page of the next one
/// is a fault again. It does so only for blocks larger than any mapped one that was let go before: mallopt(3),
/// M_MMAP_THRESHOLD. So one is taken and let go here, of which no page is touched. Where there is no room for it, or with
/// another allocator, nothing is gained and nothing is lost.
pub fn keep_large_blocks(alloc: Global) {
    if let Ok(block) = Vec::<u8>::with_capacity(alloc, LARGE) {
        drop(block);
    }
}
