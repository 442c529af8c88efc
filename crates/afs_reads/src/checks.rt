ghost use Rattle.std.specs.Prelude.{◌≡◌, OnOk};
ghost use Rattle.std.specs.List.{AllByRecursion};
ghost use Rattle.spec_ideal.specs.Operations.{first_failing};
ghost use Rattle.afs_reads.specs.Replying.{checked, HasPassed, Passes};

use crate::faults::OpFault;
use afs_num::types::Code;

/// The refusal with this code, where the test fails.
pub fn check(holds: bool, code: u16) -> Result<(), OpFault>
    ensures { result ≡ checked holds code }
{
    if holds {
        Ok(())
    } else {
        Err(OpFault::Code(Code(i32::from(code))))
    }
}

/// The refusal with the code of the first of these tests that fails.
pub fn check_all(tests: &[(bool, u16)]) -> Result<(), OpFault>
    ensures answer { Passes (first_failing tests.now) result }
    ensures passed { OnOk result (AllByRecursion HasPassed tests.now) }
{
    for test in tests {
        check(test.0, test.1)?;
    }
    Ok(())
}
