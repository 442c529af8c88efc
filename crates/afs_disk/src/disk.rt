// A disk as the journals see it: what a read gives, what a crash may leave, and what room it has.
ghost use Rattle.std.specs.Prelude.{◌≡◌, ◌≤◌, ◌+◌, ◌-◌, List, ℕ, Option, Some, length, take, drop, min, max, IfOk, OnOk, IfSome, IsSome, IsOk, option_map, ◌↔◌};
ghost use Rattle.afs_disk.specs.Disk.{overwritten, written_by, cut_by, Torn, CutShort, ComesBy, LeavesJust, Passes, Ran, Trips, Setting, Room, Holds, Takes, NoSmaller, GivesBytes, SameDisk, Untouched};

use afs_num::devices::Failed;
use afs_num::types::Mem;

/// A disk of bytes that can stop at any moment. A write, a cut, a sync and a read are its device calls.
///
/// Between two syncs each range that was written, and all behind the old end, may hold any bytes after a crash; after a
/// sync that succeeds a crash leaves what a read gives. A disk need not tell what it holds: over a real file nothing can
/// be promised but lengths and causes.
pub trait Disk {
    /// What a read of everything gives, where the disk tells it.
    ghost seen: { Self → Option (List ℕ) };

    /// How many bytes a read sees.
    ghost size: { Self → ℕ };

    /// What a crash with this pick leaves, where the disk tells it: at 0 the bytes and the length of the last sync, at 1
    /// those that a read gives, at 2 the latter with each range that wasn't synced all 0x00, at any other all 0xFF.
    ghost left_by: { Self → ℕ → Option (List ℕ) };

    /// What a crash at this moment may leave.
    ghost may_leave: { Self → List ℕ → Type 0 };

    /// The moment, as a number that doesn't fall.
    ghost moment: { Self → ℕ };

    /// What a crash at some moment from that one on might have left, during a call or between two.
    ghost left_since: { Self → ℕ → List ℕ → Type 0 };

    /// How often the disk has failed. It stands still at the last value of a counter, where each call counts as one in
    /// which it rose.
    ghost faults: { Self → ℕ };

    /// How often it has failed by itself, where no one had set it to.
    ghost own_faults: { Self → ℕ };

    /// How many device calls came, those that failed too.
    ghost calls: { Self → ℕ };

    /// How many of them were made, those that failed by themselves too: at the others it was set to stop or to fail.
    ghost made: { Self → ℕ };

    /// Where it was set to stop or to fail.
    ghost setting: { Self → Setting };

    /// How many bytes the disk is for. Those who write keep to it; the disk doesn't test it.
    ghost limit: { Self → ℕ };

    /// What the disk can do without more memory.
    ghost space: { Self → Room };

    /// How many bytes a read sees. It takes no memory.
    fn len(&self) -> u64
        ensures { result ≡ size self.now };

    /// How many bytes the disk is for. It takes no memory.
    fn capacity(&self) -> u64
        ensures { result ≡ limit self.now };

    /// Fills the buffer from this place on, as far as the length reaches, and answers how many bytes it read: 0 past the
    /// end. Fewer bytes than that count as a fault. It takes no memory.
    fn read(&mut self, at: u64, buf: &mut [u8]) -> Result<usize, Failed>
        requires { Holds 1 0 0 (space self.old) }
        ensures count { IfOk result (λ n. n ≡ min (length buf.old) (size self.old - at)) }
        ensures bytes { IfOk result (λ n. GivesBytes (seen self.old) at n buf.new) }
        ensures rest { IfOk result (λ n. drop n buf.new ≡ drop n buf.old) }
        ensures seen { seen self.new ≡ seen self.old }
        ensures picks { (pick : ℕ) → left_by self.new pick ≡ left_by self.old pick }
        ensures size { size self.new ≡ size self.old }
        ensures crash { (c : List ℕ) → may_leave self.new c → may_leave self.old c }
        ensures time { Passes (moment self.old) (moment self.new) (left_since self.old) (left_since self.new) (may_leave self.new) }
        ensures calls { calls self.new ≡ calls self.old + 1 }
        ensures stopped { Trips (setting self.old) (calls self.new) → Untouched seen left_by size may_leave moment left_since own_faults made self.old self.new × (buf.new ≡ buf.old) }
        ensures made { (Trips (setting self.old) (calls self.new) → ⊥) → made self.new ≡ made self.old + 1 }
        ensures setting { setting self.new ≡ setting self.old }
        ensures cause { Ran (setting self.old) (calls self.old) (calls self.new) (faults self.old) (faults self.new) (own_faults self.old) (own_faults self.new) result }
        ensures room { Takes 0 (space self.old) (space self.new) }
        ensures limit { limit self.new ≡ limit self.old };

    /// Writes these bytes over what stands from this place on, and past the end. Until a sync a crash may leave any
    /// bytes in that range. It takes no memory.
    fn write_at(&mut self, at: u64, bytes: &[u8]) -> Result<(), Failed>
        requires inside { at ≤ size self.old }
        requires room { Holds 1 (length bytes.now) (at + length bytes.now) (space self.old) }
        ensures written { OnOk result (seen self.new ≡ option_map (overwritten at bytes.now) (seen self.old)) }
        ensures picks { OnOk result ((pick : ℕ) → left_by self.new pick ≡ option_map (written_by pick at bytes.now) (left_by self.old pick)) }
        ensures grown { OnOk result (size self.new ≡ max (size self.old) (at + length bytes.now)) }
        ensures told { IsSome (seen self.new) ↔ IsSome (seen self.old) }
        ensures crash { ComesBy (Torn at (length bytes.now)) (may_leave self.old) (may_leave self.new) }
        ensures time { Passes (moment self.old) (moment self.new) (left_since self.old) (left_since self.new) (may_leave self.new) }
        ensures calls { calls self.new ≡ calls self.old + 1 }
        ensures stopped { Trips (setting self.old) (calls self.new) → Untouched seen left_by size may_leave moment left_since own_faults made self.old self.new }
        ensures made { (Trips (setting self.old) (calls self.new) → ⊥) → made self.new ≡ made self.old + 1 }
        ensures setting { setting self.new ≡ setting self.old }
        ensures cause { Ran (setting self.old) (calls self.old) (calls self.new) (faults self.old) (faults self.new) (own_faults self.old) (own_faults self.new) result }
        ensures room { Takes (length bytes.now) (space self.old) (space self.new) }
        ensures limit { limit self.new ≡ limit self.old };

    /// Cuts the disk to this length. It takes no memory.
    fn cut(&mut self, len: u64) -> Result<(), Failed>
        requires inside { len ≤ size self.old }
        requires room { Holds 1 0 0 (space self.old) }
        ensures cut { OnOk result (seen self.new ≡ option_map (take len) (seen self.old)) }
        ensures picks { OnOk result ((pick : ℕ) → left_by self.new pick ≡ option_map (cut_by pick len) (left_by self.old pick)) }
        ensures shorter { OnOk result (size self.new ≡ len) }
        ensures told { IsSome (seen self.new) ↔ IsSome (seen self.old) }
        ensures crash { ComesBy (CutShort len) (may_leave self.old) (may_leave self.new) }
        ensures time { Passes (moment self.old) (moment self.new) (left_since self.old) (left_since self.new) (may_leave self.new) }
        ensures calls { calls self.new ≡ calls self.old + 1 }
        ensures stopped { Trips (setting self.old) (calls self.new) → Untouched seen left_by size may_leave moment left_since own_faults made self.old self.new }
        ensures made { (Trips (setting self.old) (calls self.new) → ⊥) → made self.new ≡ made self.old + 1 }
        ensures setting { setting self.new ≡ setting self.old }
        ensures cause { Ran (setting self.old) (calls self.old) (calls self.new) (faults self.old) (faults self.new) (own_faults self.old) (own_faults self.new) result }
        ensures room { Takes 0 (space self.old) (space self.new) }
        ensures limit { limit self.new ≡ limit self.old };

    /// Makes room for the next eight device calls, if these write at most so many bytes in all and none past this end. It
    /// is no device call, changes nothing else, and takes no room away that was there.
    fn room(&mut self, end: u64, bytes: u64) -> Mem<()>
        ensures ok { OnOk result (Holds 8 bytes end (space self.new)) }
        ensures succeeds { Holds 8 bytes end (space self.old) → IsOk result }
        ensures grows { NoSmaller (space self.old) (space self.new) }
        ensures same { SameDisk seen left_by size may_leave moment left_since self.old self.new }
        ensures faults { (faults self.new ≡ faults self.old) × (own_faults self.new ≡ own_faults self.old) }
        ensures calls { (calls self.new ≡ calls self.old) × (made self.new ≡ made self.old) }
        ensures setting { setting self.new ≡ setting self.old }
        ensures limit { limit self.new ≡ limit self.old };

    /// After it a crash leaves what a read gives. It takes no memory.
    fn sync(&mut self) -> Result<(), Failed>
        requires { Holds 1 0 0 (space self.old) }
        ensures durable { OnOk result (IfSome (seen self.old) (λ bytes. LeavesJust bytes (may_leave self.new))) }
        ensures picks { OnOk result ((pick : ℕ) → left_by self.new pick ≡ seen self.new) }
        ensures seen { seen self.new ≡ seen self.old }
        ensures size { size self.new ≡ size self.old }
        ensures crash { (c : List ℕ) → may_leave self.new c → may_leave self.old c }
        ensures time { Passes (moment self.old) (moment self.new) (left_since self.old) (left_since self.new) (may_leave self.new) }
        ensures calls { calls self.new ≡ calls self.old + 1 }
        ensures stopped { Trips (setting self.old) (calls self.new) → Untouched seen left_by size may_leave moment left_since own_faults made self.old self.new }
        ensures made { (Trips (setting self.old) (calls self.new) → ⊥) → made self.new ≡ made self.old + 1 }
        ensures setting { setting self.new ≡ setting self.old }
        ensures cause { Ran (setting self.old) (calls self.old) (calls self.new) (faults self.old) (faults self.new) (own_faults self.old) (own_faults self.new) result }
        ensures room { Takes 0 (space self.old) (space self.new) }
        ensures limit { limit self.new ≡ limit self.old };

    /// Leaves what a crash with this pick leaves, and that is on the disk. Time goes on. It takes no memory.
    fn crash(&mut self, pick: u8)
        ensures picked { seen self.new ≡ left_by self.old pick }
        ensures picks { (next : ℕ) → left_by self.new next ≡ seen self.new }
        ensures image { IfSome (seen self.new) (may_leave self.old) }
        ensures told { IsSome (seen self.new) ↔ IsSome (seen self.old) }
        ensures durable { IfSome (seen self.new) (λ bytes. LeavesJust bytes (may_leave self.new)) }
        ensures time { Passes (moment self.old) (moment self.new) (left_since self.old) (left_since self.new) (may_leave self.new) }
        ensures faults { (faults self.new ≡ faults self.old) × (own_faults self.new ≡ own_faults self.old) }
        ensures calls { (calls self.new ≡ calls self.old) × (made self.new ≡ made self.old) }
        ensures setting { setting self.new ≡ setting self.old }
        ensures limit { limit self.new ≡ limit self.old };

    /// This moment is one of those since an earlier one.
    ghost counts_now: { (disk : Self) (t : ℕ) (c : List ℕ) → t ≤ moment disk → may_leave disk c → left_since disk t c };

    /// Since this moment there is no other.
    ghost just_now: { (disk : Self) (c : List ℕ) → left_since disk (moment disk) c → may_leave disk c };

    /// What a pick leaves is among what a crash may leave.
    ghost leaves: { (disk : Self) (pick : ℕ) (bytes : List ℕ) → left_by disk pick ≡ Some bytes → may_leave disk bytes };

    /// At 1 a crash leaves what a read gives.
    ghost shows: { (disk : Self) → left_by disk 1 ≡ seen disk };

    /// The length is that of the bytes.
    ghost measures: { (disk : Self) (bytes : List ℕ) → seen disk ≡ Some bytes → length bytes ≡ size disk };
}
