/// Why a journal answered no number: the record doesn't fit (the journal's length and the disk's capacity, in
/// bytes), the disk failed in this call, it failed in an earlier one, or memory was wanting.
#[derive(Clone, Copy, Debug, PartialEq, Eq)]
pub enum JournalFault {
    Full(u64, u64),
    Failed,
    Closed,
    OutOfMemory,
}

/// Why a server's store refused: the record doesn't fit (the journal's length and the disk's capacity, in bytes), the
/// disk failed in this call, it failed in an earlier one, the record of this number on the disk can't be taken, or
/// memory was wanting.
#[derive(Clone, Copy, Debug, PartialEq, Eq)]
pub enum StoreFault {
    Full(u64, u64),
    Failed,
    Closed,
    BadRecord(u64),
    OutOfMemory,
}
