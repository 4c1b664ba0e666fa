//! The laws, each as the contract of a function that does nothing.
ghost use Rattle.aom_syntax.specs.Ranges.{HeadersInRange, ClassesInRange, HeadingsInRange, InstructionsInRange};

/// The statement that opens a text.
pub fn headers_in_range()
    ensures { HeadersInRange }
{}

/// The statement that declares a class.
pub fn classes_in_range()
    ensures { ClassesInRange }
{}

/// The statement that begins a method.
pub fn headings_in_range()
    ensures { HeadingsInRange }
{}

/// A statement of a method's code.
pub fn instructions_in_range()
    ensures { InstructionsInRange }
{}
