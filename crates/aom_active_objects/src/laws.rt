//! The laws, each as the contract of a function that does nothing.
ghost use Rattle.aom_active_objects.specs.Turns.{StatusIsDetermined};

/// It does not matter by which function the requests are told.
pub fn status_is_determined()
    ensures { StatusIsDetermined }
{}
