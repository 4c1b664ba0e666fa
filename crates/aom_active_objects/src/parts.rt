//! Changes of one of the three parts.
ghost use Rattle.std.specs.Prelude.{◌≡◌, Some, true, IsTrue};
ghost use Rattle.aom_scheduler.specs.Requests.{request_at, is_server, Changes};
ghost use Rattle.aom_scheduler.specs.declared.request.Request.{Request};
ghost use Rattle.aom_scheduler.specs.Order.{without};
ghost use Rattle.aom_scheduler.specs.PriorityList.{IsEnlisted, marked};
ghost use Rattle.aom_active_objects.specs.Agrees.{may_stand};
ghost use Rattle.aom_active_objects.specs.Meanings.{is_being_cancelled};
ghost use Rattle.aom_active_objects.specs.Aborts.{aborted_request};

use aom_cells::CellId;
use aom_scheduler::{RequestState, Requests, Schedule, Timers};

/// The status of a request that is cancelled: KErrCancel.
const CANCELLED: i32 = -3;

/// The object is ready, or not.
pub fn mark(schedule: &mut Schedule, id: CellId, is_ready: bool)
    requires { IsEnlisted id schedule.old }
    ensures { schedule.new ≡ record schedule.old { entries = marked id is_ready schedule.old.entries } }
{
    if is_ready {
        schedule.set_ready(id);
    } else {
        schedule.set_waiting(id);
    }
}

/// The object has no timer from then on.
pub fn stop_timer(timers: &mut Timers, id: CellId)
    ensures { timers.new ≡ record timers.old { timers = without (λ t. t.id) id timers.old.timers } }
{
    if timers.is_set(id) {
        timers.cancel(id);
    }
}

/// The server has a signal from then on, or none.
pub fn signal(requests: &mut Requests, id: CellId, is_asked: bool)
    requires { IsTrue (is_server (request_at requests.old id)) }
    ensures { Changes requests.old requests.new id (Some (Request.Server is_asked)) }
{
    let has_signal = requests.is_ready(id);
    if is_asked && !has_signal {
        requests.signal_server(id);
    }
    if has_signal && !is_asked {
        requests.wait_for(id);
    }
}

/// A request that is being cancelled is completed from then on.
pub fn abort_request(requests: &mut Requests, id: CellId)
    requires cancelled { IsTrue (is_being_cancelled (request_at requests.old id)) }
    requires stands { may_stand (request_at requests.old id) ≡ true }
    ensures { Changes requests.old requests.new id (aborted_request (request_at requests.old id)) }
{
    if requests.is_pending(id) {
        requests.complete(id, CANCELLED);
    }
    if requests.state(id) == RequestState::Cancelling {
        requests.cancelled(id);
    }
}
