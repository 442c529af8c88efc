//! Laws about sound volumes. Each is the contract of a function that does nothing.

ghost use Rattle.spec_ideal.specs.SoundnessLaws.{
  FirstVolumes,
  NewVolumesAreSound,
  OperationsLeaveSound,
  SetUpIsLaidOut,
  SetUpLeavesSound,
  SetUpTellsOnce,
  SoundAreReadAgain,
  ValuesAreImagedAgain,
};

/// An accepted operation makes at least one edit, and leaves a sound volume sound.
pub fn operations_leave_sound()
    ensures { OperationsLeaveSound }
{}

/// A volume with its root alone is sound.
pub fn new_volumes_are_sound()
    ensures { NewVolumesAreSound }
{}

/// What is laid at set-up leaves a sound volume sound.
pub fn set_up_leaves_sound()
    ensures { SetUpLeavesSound }
{}

/// A vnode of a sound volume is what its image is read as, where its words and lengths are within an image's.
pub fn sound_are_read_again()
    ensures { SoundAreReadAgain }
{}

/// What set-up lays has index and data version 1, and leaves the volume's counter at 1.
pub fn set_up_tells_once()
    ensures { SetUpTellsOnce }
{}

/// What all lines of set-up leave of a new volume is sound, with indexes, data versions and counters at 1.
pub fn set_up_is_laid_out()
    ensures { SetUpIsLaidOut }
{}

/// The first volume of a script's line is laid out so, and is what its lines lay where each is accepted.
pub fn first_volumes_are_laid_out()
    ensures { FirstVolumes }
{}

/// An image that is read as a vnode is the image of that vnode.
pub fn values_are_imaged_again()
    ensures { ValuesAreImagedAgain }
{}
