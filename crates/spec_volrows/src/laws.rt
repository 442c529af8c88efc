//! Laws about the steps of a volume server, and of the file server beside it. Each is the contract of a function that does nothing.

ghost use Rattle.spec_volrows.specs.CellLaws.{CellsStayOpen};
ghost use Rattle.spec_volrows.specs.FileHosts.{OpenHostsArePlain};
ghost use Rattle.spec_volrows.specs.FileLaws.{ClosedAreRefused, FilesAreServedOrClosed, FileStepsAreServedOrClose, OpenServersArePlain, OpenServersStayOpen, StartsAlike};
ghost use Rattle.spec_volrows.specs.RestingHosts.{RestingHostsAreFiles};
ghost use Rattle.spec_volrows.specs.VolLaws.{ClientsLeaveVolumesAlone, DeedsAreFolded, DeedsAreShown, DeedsAreTold, DeedsAreWritable, FencesWait, HeldAreKept, HeldGoOutLast, HoldsFollow, NodesStayApart, NodesStayStamped, OthersLeaveFiles, StampsStand, TransactionsStayApart};

/// Where no volume is held, out of service or elsewhere, the file server steps as one without a volume server.
pub fn open_servers_are_plain()
    ensures { OpenServersArePlain }
{}

/// And it stays so.
pub fn open_servers_stay_open()
    ensures { OpenServersStayOpen }
{}

/// The servers of a cell whose runs have no volume server are so from set-up on, and stay so.
pub fn cells_stay_open()
    ensures { CellsStayOpen }
{}

/// As a host it is one without a volume server, where its volumes are all in service.
pub fn open_hosts_are_plain()
    ensures { OpenHostsArePlain }
{}

/// Every file server decides as one without a volume server, or refuses because a volume is closed.
pub fn files_are_served_or_closed()
    ensures { FilesAreServedOrClosed }
{}

/// Its step is the other's, or the refusal, which changes nothing that is kept.
pub fn file_steps_are_served_or_close()
    ensures { FileStepsAreServedOrClose }
{}

/// A call on a closed volume is refused with the code that says why, and every other is served as by the other.
pub fn closed_are_refused()
    ensures { ClosedAreRefused }
{}

/// It begins again as the other does.
pub fn starts_alike()
    ensures { StartsAlike }
{}

/// A message of a client to a node is its file server's, and its volume server rests.
pub fn clients_leave_volumes_alone()
    ensures { ClientsLeaveVolumesAlone }
{}

/// So is the host of a node whose callers are clients the host of its file server, from one restart to the next.
pub fn resting_hosts_are_files()
    ensures { RestingHostsAreFiles }
{}

/// What a volume server writes can be taken by the fold of its records, there is room for it, and it withdraws what its record says.
pub fn deeds_are_writable()
    ensures { DeedsAreWritable }
{}

/// What it leaves is the fold of its record.
pub fn deeds_are_folded()
    ensures { DeedsAreFolded }
{}

/// What its record tells is what its step tells of it, and what a restart tells behind it.
pub fn deeds_are_told()
    ensures { DeedsAreTold }
{}

/// A saved call does to what files see what its record says, and tells it.
pub fn deeds_are_shown()
    ensures { DeedsAreShown }
{}

/// No other call, and no answer to a call of its own, is seen by files.
pub fn others_leave_files()
    ensures { OthersLeaveFiles }
{}

/// No stored stamp falls in a call, and each transaction has the stored stamp of its family.
pub fn stamps_stand()
    ensures { StampsStand }
{}

/// So it is at every step of a node.
pub fn nodes_stay_stamped()
    ensures { NodesStayStamped }
{}

/// Transactions have ascending numbers, each is on a volume that is there, and no two are on one.
pub fn transactions_stay_apart()
    ensures { TransactionsStayApart }
{}

/// So it is at every step of a node.
pub fn nodes_stay_apart()
    ensures { NodesStayApart }
{}

/// The volumes that are held change by one where a transaction begins or ends.
pub fn holds_follow()
    ensures { HoldsFollow }
{}

/// The reply to a call that owes breaks waits for them.
pub fn fences_wait()
    ensures { FencesWait }
{}

/// What waits for a break is held as long as that is owed.
pub fn held_are_kept()
    ensures { HeldAreKept }
{}

/// Then it goes out, behind all else.
pub fn held_go_out_last()
    ensures { HeldGoOutLast }
{}
