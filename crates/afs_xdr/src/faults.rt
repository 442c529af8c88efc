use thiserror::Error;

/// Why bytes spell no such field: they end too early, a count is above its limit, a pad byte isn't zero, bytes are
/// left behind the last field, a header has an unknown half or node, or a word is none of its field's values.
#[derive(Clone, Copy, Debug, PartialEq, Eq, Error)]
pub enum XdrFault {
    #[error("the bytes end too early")]
    Short,
    #[error("a count is above its limit")]
    TooLong,
    #[error("a pad byte isn't zero")]
    BadPad,
    #[error("bytes are left behind the last field")]
    Extra,
    #[error("a header has an unknown half or node")]
    BadHead,
    #[error("a word is none of its field's values")]
    BadType,
}
