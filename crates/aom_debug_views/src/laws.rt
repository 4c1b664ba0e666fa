//! That the map of owners is whole, and the order of choice is one.
ghost use Rattle.aom_debug_views.specs.Laws.{OneOrder, ReportedOnce};

/// In each state that a machine stands for, within a dispatch too, each object and message that lives has just one line of the map of owners, but for messages in a queue, and there is no other line. That the machine's sessions are apart `report_owners` says.
pub fn owners_are_reported_once()
    ensures { ReportedOnce }
{}

/// In each state there is at most one list of all enlisted objects in the order of choice; so `report_actives` can tell no other lines.
pub fn order_of_choice_is_one()
    ensures { OneOrder }
{}
