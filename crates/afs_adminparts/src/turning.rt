//! Where failures lead, and how an act ends.

ghost use Rattle.std.specs.Prelude.{◌≡◌, IfOk};
ghost use Rattle.spec_adminrows.specs.Turns as turns;

use afs_num::types::{Code, Mem};
use spec_adminrows::places::{Cause, Place, SharedHold};
use spec_adminrows::turns::Turn;

pub const FINE: Code = Code(0);

/// The volume is there already (22, EINVAL).
pub const SAME_PLACE: Code = Code(22);

/// No dump is held under that label (2, ENOENT).
pub const NO_DUMP: Code = Code(2);

/// The named server hasn't the volume (103, VNOVOL).
pub const NOT_THERE: Code = Code(103);

/// The volume server has seen a newer stamp of the family (VOLSERBADOP).
const OLDER_STAMP: i32 = 1_492_325_131;

/// The entry is locked by another (VL_ENTRYLOCKED).
const LOCKED: i32 = 363_541;

/// The database has no such entry (VL_NOENT).
const NO_ENTRY: i32 = 363_524;

/// Whether another administrator has the entry: the stamp is an older one, or the lock is another's.
pub fn is_superseded(code: Code) -> bool
    ensures { result ≡ turns.is_superseded code }
{
    code.0 == OLDER_STAMP || code.0 == LOCKED
}

/// Whether the database has no such entry.
pub fn is_unlisted(code: Code) -> bool
    ensures { result ≡ turns.is_unlisted code }
{
    code.0 == NO_ENTRY
}

/// Whether the call was given up.
pub fn is_dead(code: Code) -> bool
    ensures { result ≡ turns.is_dead code }
{
    code.0 == -1
}

/// The first code, which stands before a later one.
pub fn code_or(code: Code, first: Option<Code>) -> Code
    ensures { result ≡ turns.code_or code first }
{
    match first {
        Some(first) => first,
        None => code,
    }
}

/// A failure: what was left is put in order, unless another administrator has the entry. The first code is the answer then.
pub fn fails(first: Option<Code>, code: Code) -> Turn
    ensures { result ≡ turns.fails first code }
{
    if is_superseded(code) {
        return Turn::Ends { code };
    }
    Turn::Goes {
        place: Place::Seeks {
            cause: Cause::After {
                code: code_or(code, first),
            },
        },
    }
}

/// The code behind which a recovery began.
fn code_behind(cause: Cause, code: Code) -> Code
    ensures { result ≡ turns.code_behind cause code }
{
    match cause {
        Cause::Asked => code,
        Cause::After { code: first } => first,
    }
}

/// A failure in a recovery: it leaves what may not be in order, unless another administrator has the entry.
pub fn mend_fails(cause: Cause, code: Code) -> Turn
    ensures { result ≡ turns.mend_fails cause code }
{
    if is_superseded(code) {
        Turn::Ends { code }
    } else {
        Turn::Sticks {
            code: code_behind(cause, code),
        }
    }
}

/// A failure before the entry is locked.
pub fn seek_fails(cause: Cause, code: Code) -> Turn
    ensures { result ≡ turns.seek_fails cause code }
{
    match cause {
        Cause::Asked => Turn::Ends { code },
        Cause::After { .. } => mend_fails(cause, code),
    }
}

/// The act ends with this code once its lock is released.
pub fn frees(hold: &SharedHold, code: Code) -> Mem<Turn>
    ensures { IfOk result (λ t. t ≡ turns.frees hold.now code) }
{
    Ok(Turn::Goes {
        place: Place::Frees {
            hold: hold.copy()?,
            code,
            first: None,
        },
    })
}
