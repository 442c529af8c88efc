// How often the disks had failed that were given back, by node.
ghost use Rattle.std.specs.Prelude.{◌≡◌, ℕ, get_or};
ghost use Rattle.afs_disk.specs.Banks.{counted};

/// A count for each node that a bank can name.
pub const NODES: usize = 256;

/// A disk of this node is given back that failed so often.
pub fn add_faults(counts: &mut [u64; NODES], node: u8, faults: u64)
    ensures { (n : ℕ) → get_or counts.new n 0 ≡ counted node faults n (get_or counts.old n 0) }
{
    let count = counts[node as usize];
    counts[node as usize] = count.saturating_add(faults);
}
