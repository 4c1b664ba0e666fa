//! What a fault of a command line's words writes of itself. The text is derived, and stands in no clause.
use aom_library::commands::WordsFault;
use std::alloc::Global;
use std::process::Abort;
use std::test::Fail;

/// A fault writes that.
fn writes(rt: &impl Abort, alloc: Global, fault: &WordsFault, text: &str) -> Result<(), Fail> {
    let written = fault.to_string(alloc)?;
    assert!(rt; written.as_str() == text, "{text}");
    Ok(())
}

#[test]
fn a_fault_of_the_words_writes_its_text(rt: HostRuntime) -> Result<(), Fail> {
    let reported = WordsFault::Text(String::from_str(rt.alloc(), "no such command")?);
    writes(&rt, rt.alloc(), &reported, "no such command")?;
    writes(&rt, rt.alloc(), &WordsFault::Native, "native")?;
    writes(&rt, rt.alloc(), &WordsFault::Memory, "memory")
}
