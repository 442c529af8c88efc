//! Laws about the courses of acts. Each is the contract of a function that does nothing.

ghost use Rattle.law_courses.specs.Courses.{CallsAreOnCourse};

/// Under each number an administrator asks one question, and each follows from the one before, by an answer that was sent.
pub fn calls_are_on_course()
    ensures { CallsAreOnCourse }
{}
