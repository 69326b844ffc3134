use acl_text::Bytes;

/// The texts of a workload: two naming files, and a policy.
#[derive(Drop)]
pub struct Workload {
    /// A file of networks: `N0`, `N1` and so on.
    pub networks: Bytes,
    /// A file of services: `S0`, `S1` and so on.
    pub services: Bytes,
    /// A policy of one block, with a target of each platform: term `ti` has the source `Ni` and the port `Si`.
    pub policy: Bytes,
}
