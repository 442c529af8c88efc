/// Why a text is no access list: the offset of the first byte that can't stand there, in bytes, or the sum of its
/// counts where that is above 20; or memory was wanting.
#[derive(Clone, Copy, Debug, PartialEq, Eq)]
pub enum AclFault {
    BadAcl(u32),
    TooMany(u64),
    OutOfMemory,
}
