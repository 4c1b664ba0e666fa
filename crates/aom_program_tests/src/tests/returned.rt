//! Natives come back from a machine that does not boot, each as it was, in their order. Memory may be refused at any request.
ghost use Rattle.std.specs.Prelude.{◌≡◌, []};

use super::pages::FIRST;
use aom_budget::Accepted;
use aom_commands::accept_bytes;
use aom_natives::{BootFault, Counter, Native};
use aom_run::HostedMachine;
use std::alloc::{AllocError, Global};
use std::process::Abort;

/// A counter that has come to that number.
fn counted(number: i32) -> Counter
    ensures { ⟦<Counter as Native>⟧.owed result ≡ [] }
{
    let mut counter = Counter::new();
    let _total = counter.call(0, 0, number);
    counter
}

/// Whether a native is a counter that has come to that number.
fn answers(native: &mut Box<dyn Native>, number: i32) -> bool {
    native.call(0, 0, 0) == number
}

/// These are three natives, numbered in their order.
fn are_in_order(rt: &impl Abort, boxes: &mut Vec<Box<dyn Native>>) {
    assert!(rt; boxes.len() == 3);
    let mut number = 0i32;
    for native in boxes.iter_mut() {
        number = number.saturating_add(1);
        assert!(rt; answers(native, number));
    }
}

/// Boots a machine of the image beside three natives. Answers why it does not boot: then they are back, in their order.
fn why_not(
    rt: &impl Abort,
    alloc: Global,
    accepted: &Accepted,
) -> Result<Option<BootFault>, AllocError> {
    let mut boxes: Vec<Box<dyn Native>> = Vec::with_capacity(alloc, 3)?;
    boxes.push(Box::new(alloc, counted(1))?)?;
    boxes.push(Box::new(alloc, counted(2))?)?;
    boxes.push(Box::new(alloc, counted(3))?)?;
    match HostedMachine::boot(alloc, accepted, boxes) {
        Ok(machine) => {
            drop(machine);
            Ok(None)
        }
        Err((fault, mut boxes)) => {
            are_in_order(rt, &mut boxes);
            Ok(Some(fault))
        }
    }
}

/// Beside three natives a machine boots, unless memory is wanting.
#[test]
fn natives_come_back_where_memory_is_wanting(rt: HostRuntime) {
    let Ok(accepted) = accept_bytes(rt.alloc(), &FIRST) else {
        return;
    };
    if let Ok(Some(fault)) = why_not(&rt, rt.alloc(), &accepted) {
        assert!(rt; fault == BootFault::OutOfMemory);
    }
}

/// It does not beside three where the image names four.
#[test]
fn natives_come_back_where_they_are_too_few(rt: HostRuntime) {
    let mut image = FIRST;
    image[14] = 4;
    let Ok(accepted) = accept_bytes(rt.alloc(), &image) else {
        return;
    };
    if let Ok(why) = why_not(&rt, rt.alloc(), &accepted) {
        assert!(rt; why == Some(BootFault::TooFewNatives));
    }
}
