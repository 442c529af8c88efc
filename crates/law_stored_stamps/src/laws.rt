//! Laws about stamps that servers have stored, in the runs of a cell with administrators. Each is the contract of a function that does nothing.

ghost use Rattle.law_stored_stamps.specs.Past.{PastCallsAreVain};
ghost use Rattle.law_stored_stamps.specs.Surveys.{SurveysAreStored};

/// A call of a volume server under a lower stamp than the server has stored of the family changes nothing there, now or later.
pub fn past_calls_are_vain()
    ensures { PastCallsAreVain }
{}

/// An administrator that moves a volume, removes it or puts it in order has brought its stamp to all servers before it changes anything. So it
/// had for each call that it ever asked in that, also for one that is still on its way.
pub fn surveys_are_stored()
    ensures { SurveysAreStored }
{}
