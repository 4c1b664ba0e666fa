//! What each fault writes of itself. The text is derived, and stands in no clause.
use super::fixed_sink::FixedSink;
use super::pages::FIRST;
use aom_budget::BudgetFault;
use aom_commands::{ExitStatus, Fault, assemble_bytes, try_run};
use aom_debug_protocol::DebugFault;
use aom_natives::BootFault;
use std::alloc::Global;
use std::fmt::Display;
use std::process::Abort;
use std::test::Fail;

/// A fault writes that.
fn writes<F: Display>(rt: &impl Abort, alloc: Global, fault: &F, text: &str) -> Result<(), Fail> {
    let written = fault.to_string(alloc)?;
    assert!(rt; written.as_str() == text, "{text}");
    Ok(())
}

/// The first image with one byte another, a script, and what the fault of its run writes.
type Case<'a> = (usize, u8, &'a [u8], &'a str);

const CASES: [Case<'static>; 16] = [
    (0, 0, b"", "load 1"),
    (4, 1, b"", "load 2"),
    (8, 1, b"", "load 3"),
    (47, 1, b"", "load 4"),
    (6, 2, b"", "load 5"),
    (48, 0, b"", "load 6"),
    (6, 1, b"", "load 7"),
    (16, 0, b"", "load 8"),
    (15, 1, b"", "load 9"),
    (26, 2, b"", "link 5"),
    (72, 1, b"", "link 6"),
    (26, 0, b"", "link 8"),
    (73, 1, b"", "verify 0 3 1"),
    (23, 3, b"", "budget 1 main price 4 declared 3"),
    (14, 1, b"", "boot 1"),
    (0, b'A', b"\n5 kill 0\n4 kill 0", "script 3 4"),
];

/// The run of the first image with one byte another.
fn run_of(alloc: Global, case: &Case<'_>) -> Result<ExitStatus, Fault> {
    let mut image = FIRST;
    if let Some(byte) = image.get_mut(case.0) {
        *byte = case.1;
    }
    try_run(
        alloc,
        &image,
        case.2,
        1_000_000,
        Vec::new(alloc),
        None,
        &mut FixedSink::blank(),
    )
}

#[test]
fn a_run_that_is_refused_writes_its_fault(rt: HostRuntime) -> Result<(), Fail> {
    for case in &CASES {
        match run_of(rt.alloc(), case) {
            Ok(_) => assert!(rt; false, "{}", case.3),
            Err(fault) => writes(&rt, rt.alloc(), &fault, case.3)?,
        }
    }
    Ok(())
}

#[test]
fn a_text_that_is_refused_writes_its_fault(rt: HostRuntime) -> Result<(), Fail> {
    let text = b"image budget 4\nfoo";
    let Err(fault) = assemble_bytes(rt.alloc(), text) else {
        assert!(rt; false);
        return Ok(());
    };
    writes(&rt, rt.alloc(), &fault, "asm 2 2")
}

/// Faults of larger images, and those of the program's own.
const OTHERS: [(Fault, &str); 8] = [
    (Fault::Budget(BudgetFault::TooDeep), "budget 2"),
    (Fault::Budget(BudgetFault::CleanupTooDeep), "budget 3"),
    (Fault::Budget(BudgetFault::OutOfMemory), "budget 4"),
    (Fault::Boot(BootFault::OutOfMemory), "boot 2"),
    (Fault::Native, "native"),
    (Fault::File, "file"),
    (Fault::Write, "write"),
    (Fault::Memory, "memory"),
];

#[test]
fn each_other_fault_writes_its_word(rt: HostRuntime) -> Result<(), Fail> {
    for (fault, text) in &OTHERS {
        writes(&rt, rt.alloc(), fault, text)?;
    }
    Ok(())
}

/// Those of a debugger's commands.
const OF_COMMANDS: [(DebugFault, &str); 6] = [
    (DebugFault::BadCommand, "fault 1"),
    (DebugFault::NoSuch, "fault 2"),
    (DebugFault::Ended, "fault 3"),
    (DebugFault::OutOfMemory, "fault 4"),
    (DebugFault::WriteFault, "fault 5"),
    (DebugFault::NotThere, "fault 6"),
];

#[test]
fn each_fault_of_a_command_writes_its_answer(rt: HostRuntime) -> Result<(), Fail> {
    for (fault, text) in &OF_COMMANDS {
        writes(&rt, rt.alloc(), fault, text)?;
    }
    Ok(())
}
