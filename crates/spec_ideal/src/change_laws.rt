//! Laws about changes of a volume. Each is the contract of a function that does nothing.

ghost use Rattle.spec_ideal.specs.ChangeLaws.{
  ChangesStayInScope,
  ChangesTouchTheirOwn,
  FirstIsHeld,
  GoneIsLast,
  NewIsUnseen,
  OperationsAreChanges,
  ToldIsHeld,
  VersionsFollow,
};

/// What was told last of each vnode is what the volume holds, after any edits.
pub fn told_is_held()
    ensures { ToldIsHeld }
{}

/// Where each vnode was told once, as set-up does, the volume holds what was told.
pub fn first_is_held()
    ensures { FirstIsHeld }
{}

/// Indexes rise by one, data versions with the bodies, and nothing follows what is gone.
pub fn versions_follow()
    ensures { VersionsFollow }
{}

/// A fid that is gone has no version any more.
pub fn gone_is_last()
    ensures { GoneIsLast }
{}

/// The fid of a new vnode was never seen.
pub fn new_is_unseen()
    ensures { NewIsUnseen }
{}

/// A call touches what is in its scope, and new fids.
pub fn changes_stay_in_scope()
    ensures { ChangesStayInScope }
{}

/// On a sound volume a call touches no vnode but those that it names, those that its names give, and the one that it makes.
pub fn changes_touch_their_own()
    ensures { ChangesTouchTheirOwn }
{}

/// An accepted operation tells one or more versions of distinct fids, by ascending vnode, each the next of its vnode, and makes
/// at most one vnode.
pub fn operations_are_changes()
    ensures { OperationsAreChanges }
{}
