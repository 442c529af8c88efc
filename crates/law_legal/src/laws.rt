//! Laws about the runs of a script. Each is the contract of a function that does nothing.

ghost use Rattle.law_legal.specs.Laws.{AcknowledgedAreKept, AcknowledgedAreMade, AnswersAreRecent, ChangesAreFolded, EffectsAreTold, KeysRunOnce, ReadsAreNewest, RunsAreLegal, RunsAreOne, RunsEndWell, SetUpsAreFirst, StartsAreFolded, VolumesAreTold, PairsAreKnown, TrustedIsGood, RoomlessAreRefused, UnservedAreRefused, CallsRunOnce, RepliesAreCaused, RepliesWereRun, KeptWereRun, DurableAreChanges, GrantsAreKept, BreaksAreOwed, RepliesFollowDrops, UnawaitedAreUntrusted, DeadAreUntrusted};
ghost use Rattle.law_legal.specs.Clientele.{CellsServeClients};
ghost use Rattle.law_legal.specs.Database.{LocChangesAreFolded, LocChangesKeepOrder, LocStartsAreFolded};
ghost use Rattle.law_legal.specs.DatabaseRuns.{LocAnswersByItsRow, LocBootsRise, LocCallsRunOnce, LocChangesAreOnce, LocJournalIsFolded, LocKeepsItsJournal, LocRunsEvents, LocSetUpsAreFirst, LocStaysSettled};
ghost use Rattle.law_legal.specs.ClientParts.{AnswersAreDue, AnswersAreGood, CachedAreFetched, ChangesAreAlone, GiftsAreDropped, ReadsAreGood, WaitsAreSilent};
ghost use Rattle.law_legal.specs.Parts.{ActsAreTold, CallsAreAsked, CallsAreOwn, ChangesAreIdeal, EntriesAreSound, LinesAreInPlace, MessagesAreOwn};
ghost use Rattle.law_legal.specs.ServerParts.{BreaksAreGood, BreaksAreOnce, CachedAreBrought, FallsAreKept, GoodReadsAreLegal, GrantsAreGood, RepliesAreTrue, RepliesWait, TimeoutsAreGood, VersionsAreKept};

/// Every run is legal, of a script for eight servers at most, which have its volumes.
pub fn runs_are_legal()
    ensures { RunsAreLegal }
{}

/// No key changes something twice in a run.
pub fn keys_run_once()
    ensures { KeysRunOnce }
{}

/// A good read shows the newest version, unless its grant was withdrawn and the client hasn't given it up.
pub fn reads_are_newest()
    ensures { ReadsAreNewest }
{}

/// In a legal history an act that changes something is answered 0 only where one of its calls changed it.
pub fn acknowledged_are_made()
    ensures { AcknowledgedAreMade }
{}

/// In a run of such a script, what was acknowledged survives every crash: each server keeps of each volume that is no other's what all
/// changes that were told have made of it, and so does what an interrupted step may have left, with what a restart tells of that.
pub fn acknowledged_are_kept()
    ensures { AcknowledgedAreKept }
{}

/// A run of such a script ends with servers that hold the ideal volumes, in which what was acknowledged is kept.
pub fn runs_end_well()
    ensures { RunsEndWell }
{}

/// In a legal history an act is answered by a reply to a call that ran since it began.
pub fn answers_are_recent()
    ensures { AnswersAreRecent }
{}

/// The same inputs make the same run.
pub fn runs_are_one()
    ensures { RunsAreOne }
{}

/// Each server holds just the ideal volumes whose stores it accepts, and the versions that were told agree with them.
pub fn volumes_are_told()
    ensures { VolumesAreTold }
{}

/// No call of a client, and no reply to one, has a pair above its last.
pub fn pairs_are_known()
    ensures { PairsAreKnown }
{}

/// What an idle client trusts can be shown from its cache.
pub fn trusted_is_good()
    ensures { TrustedIsGood }
{}

/// A server tells that a call isn't served exactly where its caller is no client, or its opcode none of those that it serves.
pub fn unserved_are_refused()
    ensures { UnservedAreRefused }
{}

/// A server tells that there is no room exactly where a change has none.
pub fn roomless_are_refused()
    ensures { RoomlessAreRefused }
{}

/// What a change leaves of a server is the fold of its record.
pub fn changes_are_folded()
    ensures { ChangesAreFolded }
{}

/// What the record of one change tells is what its step tells.
pub fn effects_are_told()
    ensures { EffectsAreTold }
{}

/// What set-up puts on a server's disk is what the server begins with.
pub fn set_ups_are_first()
    ensures { SetUpsAreFirst }
{}

/// What a start leaves of a server is the fold of its record.
pub fn starts_are_folded()
    ensures { StartsAreFolded }
{}

/// A key runs at most once in a boot of its server.
pub fn calls_run_once()
    ensures { CallsRunOnce }
{}

/// A reply that counts is that of the entry which ran its call, and tells what the ideal cell made of it there.
pub fn replies_are_caused()
    ensures { RepliesAreCaused }
{}

/// Each reply to a client is that of the entry that ran its call in the boot that the reply carries.
pub fn replies_were_run()
    ensures { RepliesWereRun }
{}

/// So is each reply that a server keeps for a client: it is its own reply, and answers the call whose pair is kept.
pub fn kept_were_run()
    ensures { KeptWereRun }
{}

/// What a disk keeps of a caller is its last call that changed something, with the reply to that.
pub fn durable_are_changes()
    ensures { DurableAreChanges }
{}

/// A grant that lasts, and was neither withdrawn nor dropped by its client, is promised still.
pub fn grants_are_kept()
    ensures { GrantsAreKept }
{}

/// A break that became owed is ended, or its server owes it still.
pub fn breaks_are_owed()
    ensures { BreaksAreOwed }
{}

/// A client that answers a break has given up what the break is on.
pub fn replies_follow_drops()
    ensures { RepliesFollowDrops }
{}

/// In a run, a changing call that its server may still run, and for which its client no longer waits, can change nothing that this client
/// keeps, but for what it was promised in an older boot of that server.
pub fn unawaited_are_untrusted()
    ensures { UnawaitedAreUntrusted }
{}

/// In a run, a client keeps nothing of the volume of a changing call that it gave up and that its server may still run.
pub fn dead_are_untrusted()
    ensures { DeadAreUntrusted }
{}

/// The act that runs at a client is the one which the lines tell.
pub fn acts_are_told()
    ensures { ActsAreTold }
{}

/// Each file call of a client is one that the act asked which ran there.
pub fn calls_are_asked()
    ensures { CallsAreAsked }
{}

/// Each entry is of a node of the script, and as that is, up or down: one that is down does nothing but begin again, or fail to. What it is
/// given was sent to its node, a client that runs a break drops what this is on, and each reply that is sent to a client was run.
pub fn entries_are_sound()
    ensures { EntriesAreSound }
{}

/// Each line stands in an entry of its node, and not beside what excludes it.
pub fn lines_are_in_place()
    ensures { LinesAreInPlace }
{}

/// What carries a call is a call by its header; and what a client's call gives back that dropped in the very act, and fetched nothing of
/// since.
pub fn gifts_are_dropped()
    ensures { GiftsAreDropped }
{}

/// An act changes things once, however often its call is repeated, and also when it is over.
pub fn changes_are_alone()
    ensures { ChangesAreAlone }
{}

/// What an act fetches is of replies to its own calls, each the last that was made, and what it reads from the cache it reads where it
/// begins or goes on. Its answer has a cause: such a reply, what it read, the third timeout of its call, or that it had nothing to give
/// back.
pub fn answers_are_due()
    ensures { AnswersAreDue }
{}

/// Each answer has its cause: a reply that tells what the ideal cell made of the act's own call, or what the act read, or the third timeout of
/// its call, or that it had nothing to give back.
pub fn answers_are_good()
    ensures { AnswersAreGood }
{}

/// Each read is good: it is whole, no older than what its client saw, rests on a promise that lasts, and shows the newest version unless
/// that promise was withdrawn; of rights it was the newest where the call for them ran.
pub fn reads_are_good()
    ensures { ReadsAreGood }
{}

/// While a client waits for a call it reads nothing and is answered nothing; and unless the reply is spoiled it dropped nothing since that
/// the call names.
pub fn waits_are_silent()
    ensures { WaitsAreSilent }
{}

/// An entry of a client's cache is of the server whose reply the client's last fetched read of that object was of, and since then the
/// client dropped neither the object nor all that the server promised.
pub fn cached_are_fetched()
    ensures { CachedAreFetched }
{}

/// Each message is sent by the node that its header names as sender, and each call of a client under a key that no file call had
/// which was sent before the act that it began last.
pub fn messages_are_own()
    ensures { MessagesAreOwn }
{}

/// A client's call is one that its running act asks for, numbered in order, the one under its key, and to the server of what it asks or gives back.
pub fn calls_are_own()
    ensures { CallsAreOwn }
{}

/// Each change is what the ideal cell makes of the call that ran.
pub fn changes_are_ideal()
    ensures { ChangesAreIdeal }
{}

/// Each promise of a server is made where it runs a call whose reply promises that object, for 7200 ticks.
pub fn grants_are_good()
    ensures { GrantsAreGood }
{}

/// Behind each change its breaks are owed, and each break that becomes owed, is settled or is given up has its cause.
pub fn breaks_are_good()
    ensures { BreaksAreGood }
{}

/// A break becomes owed once in its entry, and is settled or given up once.
pub fn breaks_are_once()
    ensures { BreaksAreOnce }
{}

/// Each timeout is of a call that was sent before, and is its first or has the one below it before; it is the third at most. A client
/// waits for the reply still, which no entry was given, and answers its act -1 after the third.
pub fn timeouts_are_good()
    ensures { TimeoutsAreGood }
{}

/// What a client reads from its cache came to it since it last crashed: by a read that was fetched, or by an own act that made that version.
pub fn cached_are_brought()
    ensures { CachedAreBrought }
{}

/// A server's reply with code 0 waits until no break is open that an entry given its call owes, or, where that changed something, any on all.
pub fn replies_wait()
    ensures { RepliesWait }
{}

/// Each reply of a server to a client tells what the ideal operation made of the call that its entry was given, and is of that call's kind.
pub fn replies_are_true()
    ensures { RepliesAreTrue }
{}

/// While a server is down, what its interrupted step may have left holds the ideal volumes, behind what a restart tells of that step.
pub fn falls_are_kept()
    ensures { FallsAreKept }
{}

/// A run, of any number of servers, is legal where what its clients read and answer is good.
pub fn good_reads_are_legal()
    ensures { GoodReadsAreLegal }
{}

/// Each version that was told, or a later one of its object, is held by the server that accepts stores of its volume, and by what an
/// interrupted step of that may have left.
pub fn versions_are_kept()
    ensures { VersionsAreKept }
{}

/// What a change leaves of the location database is the fold of its record.
pub fn loc_changes_are_folded()
    ensures { LocChangesAreFolded }
{}

/// What a start leaves of it is the fold of its record.
pub fn loc_starts_are_folded()
    ensures { LocStartsAreFolded }
{}

/// Whatever is called, its entries stay under their numbers, and each lock's stamp was drawn; no counter falls.
pub fn loc_changes_keep_order()
    ensures { LocChangesKeepOrder }
{}

/// The location database's boot number never falls, and stays while it doesn't begin again.
pub fn loc_boots_rise()
    ensures { LocBootsRise }
{}

/// What it has at the end of a run is what messages and restarts make of it as it was set up.
pub fn loc_runs_events()
    ensures { LocRunsEvents }
{}

/// And what it keeps is the fold of the records that its journal gets.
pub fn loc_journal_is_folded()
    ensures { LocJournalIsFolded }
{}

/// What set-up puts on its disk is what it begins with.
pub fn loc_set_ups_are_first()
    ensures { LocSetUpsAreFirst }
{}

/// So in every run, where it is given what nodes of the cell sent.
pub fn loc_keeps_its_journal()
    ensures { LocKeepsItsJournal }
{}

/// What it sends in a run is what its row says to what it is given, whoever sent that.
pub fn loc_answers_by_its_row()
    ensures { LocAnswersByItsRow }
{}

/// In one boot of it no call runs twice.
pub fn loc_calls_run_once()
    ensures { LocCallsRunOnce }
{}

/// What it keeps of a caller on its disk is no later call than the caller's last one.
pub fn loc_stays_settled()
    ensures { LocStaysSettled }
{}

/// Over all its boots no call runs again that changed something.
pub fn loc_changes_are_once()
    ensures { LocChangesAreOnce }
{}

/// In a run each message on its way to a server is a client's, and so is that in whose step a server went down.
pub fn cells_serve_clients()
    ensures { CellsServeClients }
{}
