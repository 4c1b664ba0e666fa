//! A program that asks where the image of a text fails a condition of linking.
use aom_library::asm::assemble;
use aom_library::classes::{LinkPlace, check_conditions, link_place};
use std::alloc::Global;
use std::process::Abort;
use std::test::Fail;

const JUMPS_BACK: &str = "\
image cells 1 budget 4
method main main
const r0 7
again: print r0
jump again
end
";

const LACKS_A_DESTRUCTOR: &str = "\
image cells 1 budget 4
class a plain
class b plain own a
method main main
ret
end
";

const SECOND_MAIN: &str = "\
image cells 1 budget 4
method main main
ret
end
method other main
ret
end
";

const LINKED: &str = "\
image cells 1 budget 4
method main main
ret
end
";

/// Where the image of a text fails the first condition that it fails, if it fails one. Of a text that makes no image there is no answer.
fn place_reported(alloc: Global, text: &[u8]) -> Option<Option<LinkPlace>> {
    let image = assemble(alloc, text).ok()?;
    match check_conditions(&image) {
        Ok(_) => Some(None),
        Err(fault) => Some(link_place(&image, fault)),
    }
}

/// The kind of a place, by a letter, and its numbers.
fn numbers(place: LinkPlace) -> (char, u16, usize) {
    match place {
        LinkPlace::Class(class) => ('c', class.number(), 0),
        LinkPlace::Method(method) => ('m', method.number(), 0),
        LinkPlace::Instruction(method, place) => ('i', method.number(), place),
    }
}

fn reports(
    rt: &impl Abort,
    alloc: Global,
    text: &str,
    reported: Option<(char, u16, usize)>,
) -> Result<(), Fail> {
    match place_reported(alloc, text.as_bytes()) {
        Some(place) => assert!(rt; place.map(numbers) == reported, "{text}"),
        None => assert!(rt; false, "no image: {text}"),
    }
    Ok(())
}

#[test]
fn a_fault_of_linking_has_a_place(rt: HostRuntime) -> Result<(), Fail> {
    reports(&rt, rt.alloc(), JUMPS_BACK, Some(('i', 0, 2)))?;
    reports(&rt, rt.alloc(), LACKS_A_DESTRUCTOR, Some(('c', 1, 0)))?;
    reports(&rt, rt.alloc(), SECOND_MAIN, Some(('m', 1, 0)))?;
    reports(&rt, rt.alloc(), LINKED, None)
}
