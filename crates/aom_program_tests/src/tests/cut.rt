//! Outputs that fail: what is out then is a beginning of what would have been written, and the fault is told.
use super::page::BoundedPage;
use super::pages::{Case, CommandCall, FIRST, SHORT, all_report, assembled, is_reported, reports};
use aom_commands::{ExitStatus, run_bytes};
use std::alloc::Global;
use std::process::Abort;
use std::test::Fail;

const CUT: [Case<'static>; 6] = [
    (CommandCall::Asm(SHORT), 4, b"AOIM"),
    (CommandCall::Dis(&FIRST), 5, b"image"),
    (CommandCall::Run(&FIRST, b""), 0, b""),
    (CommandCall::Run(&FIRST, b""), 10, b"@0 main\nou"),
    (CommandCall::Run(&FIRST, b""), 20, b"@0 main\nout 7\nend st"),
    (CommandCall::Check(&FIRST), 5, b"accep"),
];

#[test]
fn the_output_may_fail(rt: HostRuntime) {
    all_report(&rt, rt.alloc(), ExitStatus::Fault, &CUT);
}

/// Errors that fail change nothing else.
#[test]
fn a_refusal_may_be_cut(rt: HostRuntime) {
    let alloc = rt.alloc();
    let mut out = BoundedPage::new(alloc, 100);
    let mut errors = BoundedPage::new(alloc, 3);
    let status = run_bytes(alloc, b"", b"", 1, Vec::new(alloc), &mut out, &mut errors);
    assert!(rt; is_reported(status, &out, &errors, ExitStatus::ImageRefused, b"loa"));
}

/// Three objects on the cleanup stack, which a leave unwinds. A header comes before it.
const THREE: &str = "class C plain;class D plain;class E plain
method f do leaves;newl r0 C;push r0;newl r0 D;push r0;newl r0 E;push r0;const r0 -2;leave r0;end
method main main;trap self f r0 r0;print r1;stop;ret;end";

/// What is out of figures whose output takes so many bytes.
const FIGURES: [(usize, &[u8]); 3] = [
    (5, b"accep"),
    (22, b"accepted\nmain price 15"),
    (
        142,
        b"accepted\nmain price 15 declared 15\nframes 2 of 256\nentries 3 of 1024\nmethod 0 price 11 frames 1 entries 3\nmethod 1 price 15 frames 2 entries 3",
    ),
];

/// The same of an image that is refused for its budget.
const FIGURES_OF_REFUSED: [(usize, &[u8]); 2] = [(0, b""), (13, b"main price 15")];

/// The same of the graph of that image.
const GRAPH: [(usize, &[u8]); 3] = [(0, b""), (7, b"digraph"), (18, b"digraph aom {\nc0 [")];

/// A call is cut so at each of these rooms for its output, and the fault is told.
fn all_cut(rt: &impl Abort, alloc: Global, call: &CommandCall<'_>, cuts: &[(usize, &[u8])]) {
    for cut in cuts {
        assert!(rt;
            reports(alloc, call, cut.0, ExitStatus::Fault, cut.1),
            "{}",
            cut.0
        );
    }
}

/// It is told in place of why an image is refused.
#[test]
fn figures_and_graphs_may_be_cut(rt: HostRuntime) -> Result<(), Fail> {
    let alloc = rt.alloc();
    let paid = assembled(&rt, alloc, &["image cells 3 budget 15;", THREE])?;
    all_cut(&rt, alloc, &CommandCall::Prices(paid.as_slice()), &FIGURES);
    let unpaid = assembled(&rt, alloc, &["image cells 3 budget 14;", THREE])?;
    all_cut(
        &rt,
        alloc,
        &CommandCall::Prices(unpaid.as_slice()),
        &FIGURES_OF_REFUSED,
    );
    all_cut(&rt, alloc, &CommandCall::Dot(unpaid.as_slice()), &GRAPH);
    Ok(())
}

/// A server whose sessions each have a timer that keeps one message, which is completed as its time has come or as the timer goes.
const KEEPS: &str = "image cells 3 messages 4 budget 120 root V
class T active timer own msg budget 10;class S session own T;class V server S max 4 budget 40
method k cancel of T;abort;ret;end
method td destruct of T;cancel;take r0 f0;jnull r0 L;const r1 -15;reply r0 r1
L: ret;end
method tr run of T;take r0 f0;jnull r0 L;status r1;reply r0 r1
L: ret;end
method tn construct of T;enlist 0;ret;end
method hold do of T args msg;jactive B;jempty f0 E
B: const r1 -16;reply r0 r1;ret
E: put f0 r0;jadded G;ret
G: const r1 100;issue r1 r1;setactive;ret;end
method sd destruct of S;take r0 f0;delete r0;ret;end
method sn construct of S leaves;newl r0 T;push r0;call c0 tn;pop r0;put f0 r0;ret;end
method sv service of S;jempty f0 N;takemsg r5;call f0 hold r5;ret
N: takemsg r5;const r6 -2;reply r5 r6;ret;end
method acc accept of V leaves;newl r0 S;push r0;call c0 sn;pop r0;ret r0;end
method vn construct of V;enlist 0;ret;end
method main main leaves;newl r0 V;push r0;call c0 vn;pop r0;put f0 r0;ret;end
";

/// A client that dies as its second message waits.
const DIES: &str = "1 connect 0 2 2\n2 send 0 1 0 0 0 0\n3 send 0 2 0 0 0 0\n3 die 0";

/// What is told of that.
const DISCARDED: &[u8] = b"@0 main
@1 serve 2 connect 0
reply 0 0
@2 serve 2 message 0
@3 serve 2 close 0
discard 0 -15
gone 0
gone 1
end waiting cells 1
";

/// The output takes so many bytes of the run and then fails: just these are out.
fn is_cut_at(alloc: Global, call: &CommandCall<'_>, room: usize) -> bool {
    room <= DISCARDED.len() && reports(alloc, call, room, ExitStatus::Fault, &DISCARDED[..room])
}

/// It is so wherever the output ends.
fn is_cut_everywhere(rt: &impl Abort, alloc: Global, image: &[u8]) {
    let call = CommandCall::Run(image, DIES.as_bytes());
    for room in 0..DISCARDED.len() {
        assert!(rt; is_cut_at(alloc, &call, room), "{room}");
    }
    let whole = DISCARDED.len();
    assert!(rt; reports(alloc, &call, whole, ExitStatus::Unfinished, DISCARDED));
}

#[test]
fn what_went_out_is_a_beginning_wherever_it_ends(rt: HostRuntime) -> Result<(), Fail> {
    let image = assembled(&rt, rt.alloc(), &[KEEPS])?;
    is_cut_everywhere(&rt, rt.alloc(), image.as_slice());
    Ok(())
}
