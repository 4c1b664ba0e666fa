//! Programs of objects that a native of the tests' own serves, from their texts to their transcripts.
ghost use Rattle.std.specs.Prelude.{◌≡◌, []};
ghost use Rattle.aom_natives.specs.Owed.{OweNothing};

use super::page::BoundedPage;
use super::pages::{assembled, is_reported, run_beside};
use aom_commands::ExitStatus;
use aom_natives::Native;
use std::alloc::Global;
use std::process::Abort;
use std::test::Fail;

/// A run of the image of a text in parts, beside these natives, ends and tells so.
fn serves(
    rt: &impl Abort,
    alloc: Global,
    boxes: Vec<Box<dyn Native>>,
    text: &[&str],
    script: &str,
    status: ExitStatus,
    reported: &[u8],
) -> Result<(), Fail>
    requires { OweNothing (λ b. (⟦<dyn Native as Native>⟧ b.vtable).owed b.value) boxes.items }
{
    let image = assembled(rt, alloc, text)?;
    let mut out = BoundedPage::new(alloc, 1 << 10);
    let mut errors = BoundedPage::new(alloc, 100);
    let ended = run_beside(
        alloc,
        image.as_slice(),
        script.as_bytes(),
        boxes,
        &mut out,
        &mut errors,
    );
    assert!(rt;
        is_reported(ended, &out, &errors, status, reported),
        "{script}"
    );
    Ok(())
}

/// The same beside one native.
pub fn serves_beside(
    rt: &impl Abort,
    alloc: Global,
    native: Box<dyn Native>,
    text: &[&str],
    script: &str,
    status: ExitStatus,
    reported: &[u8],
) -> Result<(), Fail>
    requires { (⟦<dyn Native as Native>⟧ native.vtable).owed native.value ≡ [] }
{
    let mut boxes = Vec::with_capacity(alloc, 1)?;
    boxes.push(native)?;
    serves(rt, alloc, boxes, text, script, status, reported)
}

/// The same beside two.
pub fn serves_beside_both(
    rt: &impl Abort,
    alloc: Global,
    first: Box<dyn Native>,
    second: Box<dyn Native>,
    text: &[&str],
    script: &str,
    status: ExitStatus,
    reported: &[u8],
) -> Result<(), Fail>
    requires first { (⟦<dyn Native as Native>⟧ first.vtable).owed first.value ≡ [] }
    requires second { (⟦<dyn Native as Native>⟧ second.vtable).owed second.value ≡ [] }
{
    let mut boxes = Vec::with_capacity(alloc, 2)?;
    boxes.push(first)?;
    boxes.push(second)?;
    serves(rt, alloc, boxes, text, script, status, reported)
}

/// Two objects, each of which begins a request, prints with what it was completed, and begins another.
pub const TWO_SENSORS: &str = "image cells 3 natives 1 budget 80 root P
class N active native 0 words 1 budget 20;class P plain own N,N
method k cancel of N;abort;ret;end
method d destruct of N;cancel;ret;end
method r run of N;status r0;print r0;load r1 w0;const r2 0;jeq r1 r2 G;ret
G: const r1 1;store w0 r1;issue r2 r2;setactive;ret;end
method n construct of N;enlist 0;connect r0;issue r0 r0;setactive;ret;end
method pd destruct of P;take r0 f0;delete r0;take r0 f1;delete r0;ret;end
method pn construct of P leaves
newl r0 N;push r0;call c0 n;pop r0;put f0 r0
newl r0 N;push r0;call c0 n;pop r0;put f1 r0;ret;end
method main main leaves;newl r0 P;push r0;call c0 pn;pop r0;put f0 r0;ret;end
";

/// An object that asks twice and begins a request, with a main that ends as the text behind it says.
pub const ASKS: &str = "image cells 1 natives 1 budget 60 root N;class N active native 0 budget 20
method k cancel of N;abort;ret;end
method d destruct of N;cancel;ret;end
method r run of N;status r0;print r0;ret;end
method n construct of N;enlist 0;connect r0;const r1 0;const r2 7
ask r0 r1 r2;print r0;ask r0 r1 r2;print r0;issue r1 r2;setactive;ret;end
method main main leaves;newl r0 N;push r0;call c0 n;pop r0;put f0 r0;";

/// An object that asks twice, with a main that ends as the text behind it says.
pub const COUNTS: &str = "image cells 1 natives 1 budget 60 root N;class N active native 0 budget 20
method k cancel of N;abort;ret;end
method d destruct of N;cancel;ret;end
method r run of N;ret;end
method n construct of N;enlist 0;connect r0;const r1 0;const r2 7
ask r0 r1 r2;print r0;ask r0 r1 r2;print r0;ret;end
method main main leaves;newl r0 N;push r0;call c0 n;pop r0;put f0 r0;";

/// Two objects, each with a native of its own: the first asks twice, the other begins a request and prints with what it is completed.
pub const TWO_NATIVES: &str = "image cells 3 natives 2 budget 90 root P
class N active native 0 budget 20;class M active native 1 budget 20;class P plain own N,M
method nk cancel of N;abort;ret;end
method nd destruct of N;cancel;ret;end
method nr run of N;ret;end
method nn construct of N;enlist 0;connect r0;const r1 0;const r2 7
ask r0 r1 r2;print r0;ask r0 r1 r2;print r0;ret;end
method mk cancel of M;abort;ret;end
method md destruct of M;cancel;ret;end
method mr run of M;status r0;print r0;ret;end
method mn construct of M;enlist 0;connect r0;issue r0 r0;setactive;ret;end
method pd destruct of P;take r0 f0;delete r0;take r0 f1;delete r0;ret;end
method pn construct of P leaves
newl r0 N;push r0;call c0 nn;pop r0;put f0 r0
newl r0 M;push r0;call c0 mn;pop r0;put f1 r0;ret;end
method main main leaves;newl r0 P;push r0;call c0 pn;pop r0;put f0 r0;";
