//! A packet that was taken and is not confirmed yet. Its bytes stand in the spool's buffer behind those before it.
#[derive(Clone, Copy, Debug, PartialEq, Eq)]
pub struct Pending {
    pub seqno: u64,
    pub last: bool,
    pub len: usize,
}
