//! Runs of an image which something befalls, each by its last line.
ghost use Rattle.std.specs.Prelude.{ℕ, ◌≡◌, ◌≤◌, ◌<◌, ◌+◌, ◌-◌, ◌^◌, ◌⊎◌, All, List, [], ◌∷◌, ◌++◌, IfOk, IfErr, IfSome, Ok, Err, codes, cond, false, length, take, true};
ghost use Rattle.aom_natives.specs.Slots.{AllAgree};
ghost use Rattle.aom_run.specs.Calls.{natives_of};
ghost use Rattle.aom_run.specs.Outcomes.{outcome_of};
ghost use Rattle.aom_transcript.specs.Sinks.{after};
ghost use Rattle.aom_transcript.specs.Text.{ended};
ghost use Rattle.aom_script.specs.Script.{IsTimely, denoted};
ghost use Rattle.aom_fault_injection.specs.Injections.{CanInject, injected};
ghost use Rattle.aom_fault_injection.specs.Expected.{exploration_of, is_unexpected};
ghost use Rattle.aom_fault_injection.specs.OutcomeTables.{counted, nothing_counted};
ghost use Rattle.aom_fault_injection.specs.Planned.{AreTimes};
ghost use Rattle.aom_commands.specs.Acceptable.{IsSerialized};
ghost use Rattle.aom_commands.specs.Beside.{AllNew, AreNew};
ghost use Rattle.aom_commands.specs.Explored.{AcceptedExplores, Begun, BreaksOff, ExploreAnswers, ExploreAnswersOf, Explored, HasPlain, IsLast, Plans, RefusesTry, Tried, TriesAll, base_line, closing, judged_count, kept_text, outcomes_of, run_line, told_runs, unexpected_among};
ghost use Rattle.aom_commands.specs.Headline.{HasNatives, IsFreshOf, IsSilent, RefusesBoot, Says, outside_of, over};
ghost use Rattle.aom_commands.specs.Unreported.{Unreported};

use crate::accepting::accept_bytes;
use crate::collecting_sink::CollectingSink;
use crate::faults::answer;
use crate::running::{booted, runs_well};
use crate::{ExitStatus, Fault, report};
use aom_budget::Accepted;
use aom_fault_injection::{
    ExpectedEnding, ExploreOptions, Injection, OutcomeCounts, Plan, Tries, is_unexpected, mark_of,
    times_of,
};
use aom_natives::{Counter, Delay, Line, Native, NativeKind};
use aom_run::{HostedMachine, Outcome, line_buffer, run};
use aom_script::{Script, read_script};
use aom_transcript::{Ending, Page, Sink, write_text};
use std::alloc::{AllocError, Global};

/// How a run ended, how many cells were left, and how many allocation requests it made.
#[derive(Clone, Copy)]
struct RunEnd {
    ending: Ending,
    cells: usize,
    requests: u64,
}

/// How the run as it is ended, and when it did something, where that is asked.
#[derive(Drop)]
struct Plain {
    last: RunEnd,
    times: Vec<u64>,
}

/// What is tried, and how the run ended by which that is planned.
#[derive(Drop)]
struct Planned {
    plain: RunEnd,
    plan: Plan,
}

/// How the runs that are told ended: in which ways, and how many of them not as expected.
#[derive(Drop)]
struct Told {
    outcome_counts: OutcomeCounts,
    unexpected: usize,
}

impl Told {
    fn new() -> Told
        ensures counts { result.outcome_counts ≡ nothing_counted }
        ensures unexpected { result.unexpected ≡ 0 }
    {
        Told {
            outcome_counts: OutcomeCounts::new(),
            unexpected: 0,
        }
    }

    /// Counts a run that ended so.
    fn count(&mut self, last: RunEnd, expected: &[ExpectedEnding])
        requires many { self.old.outcome_counts.tries < 2 ^ 64 - 1 }
        requires few { self.old.unexpected ≤ self.old.outcome_counts.tries }
        ensures counts { self.new.outcome_counts ≡ counted self.old.outcome_counts last.ending }
        ensures unexpected { self.new.unexpected ≡ self.old.unexpected + cond (is_unexpected expected.now last.ending last.cells) 1 0 }
    {
        self.outcome_counts.count(last.ending);
        let is_unexpected = is_unexpected(expected, last.ending, last.cells);
        self.unexpected = add_one_if(self.unexpected, is_unexpected);
    }

    /// How many runs did not end as expected, where ends are judged.
    fn judged(&self, options: ExploreOptions<'_>) -> Option<usize>
        ensures { result ≡ judged_count options.entry.expected.now self.now.unexpected }
    {
        if options.judges() {
            Some(self.unexpected)
        } else {
            None
        }
    }
}

/// One more, if that is so.
fn add_one_if(count: usize, is_so: bool) -> usize
    requires { count < 2 ^ 64 - 1 }
    ensures { result ≡ count + cond is_so 1 0 }
{
    if is_so { count + 1 } else { count }
}

/// How a run ended, unless memory was wanting for what is kept of it.
fn ending_of(outcome: Outcome) -> Option<Ending>
    ensures { IfSome result (λ ending. outcome ≡ outcome_of ending) }
{
    match outcome {
        Outcome::Stopped => Some(Ending::Stopped),
        Outcome::Waiting => Some(Ending::Waiting),
        Outcome::MainLeft(code) => Some(Ending::MainLeft(code)),
        Outcome::Limit => Some(Ending::Limit),
        Outcome::Error(answer) => Some(Ending::Error(answer)),
        Outcome::WriteFault => None,
    }
}

/// What is run again and again: an accepted image under a script, beside natives of those kinds.
#[derive(Clone, Copy)]
struct Trial<'a> {
    accepted: &'a Accepted,
    script: &'a Script,
    limit: u32,
    kinds: &'a [NativeKind],
}

/// Runs a machine that has booted, whose natives are new ones of the trial's kinds, to its end.
fn last_booted(
    alloc: Global,
    trial: &Trial<'_>,
    machine: &mut HostedMachine,
    kept: &mut CollectingSink,
) -> Result<RunEnd, Fault>
    requires limit { (1 ≤ trial.now.limit) × (trial.now.limit ≤ 1000000000) }
    requires timely { IsTimely trial.now.script.now.timed }
    requires agree { AllAgree (λ l. l.ids) (λ l. (⟦<dyn Native as Native>⟧ l.native.vtable).owed l.native.value) machine.old.natives.slots.items }
    requires new { AllNew (λ l. record { owed = (⟦<dyn Native as Native>⟧ l.native.vtable).owed l.native.value; open_may = (⟦<dyn Native as Native>⟧ l.native.vtable).open_may l.native.value; start_may = (⟦<dyn Native as Native>⟧ l.native.vtable).start_may l.native.value; call_may = (⟦<dyn Native as Native>⟧ l.native.vtable).call_may l.native.value; poll_may = (⟦<dyn Native as Native>⟧ l.native.vtable).poll_may l.native.value }) trial.now.kinds.now machine.old.natives.slots.items }
    requires fresh { IsFreshOf trial.now.accepted.now machine.old }
    ensures ok { IfOk result (λ last. (text : List ℕ) × IsLast trial.now.accepted.now (outside_of trial.now.script.now trial.now.limit (natives_of machine.old)) last text × (kept_text kept.new.keeps kept.new.text.items ≡ after (kept_text kept.old.keeps kept.old.text.items) text)) }
    ensures err { IfErr result (λ fault. fault ≡ Fault.Memory) }
{
    let mut lines = line_buffer(alloc, trial.accepted, trial.script)?;
    let outcome = run(machine, trial.script, &mut lines, trial.limit, kept);
    let Some(ending) = ending_of(outcome) else {
        return Err(Fault::Memory);
    };
    Ok(RunEnd {
        ending,
        cells: machine.core.count(),
        requests: machine.core.requests(),
    })
}

/// Runs the image beside those natives, which are new ones of its kinds, to its end.
fn last_beside(
    alloc: Global,
    trial: &Trial<'_>,
    boxes: Vec<Box<dyn Native>>,
    kept: &mut CollectingSink,
) -> Result<RunEnd, Fault>
    requires limit { (1 ≤ trial.now.limit) × (trial.now.limit ≤ 1000000000) }
    requires timely { IsTimely trial.now.script.now.timed }
    requires new { AreNew (λ b. record { owed = (⟦<dyn Native as Native>⟧ b.vtable).owed b.value; open_may = (⟦<dyn Native as Native>⟧ b.vtable).open_may b.value; start_may = (⟦<dyn Native as Native>⟧ b.vtable).start_may b.value; call_may = (⟦<dyn Native as Native>⟧ b.vtable).call_may b.value; poll_may = (⟦<dyn Native as Native>⟧ b.vtable).poll_may b.value }) trial.now.kinds.now boxes.items }
    ensures ok { IfOk result (λ last. (text : List ℕ) × IsLast trial.now.accepted.now (outside_of trial.now.script.now trial.now.limit (length trial.now.kinds.now)) last text × (kept_text kept.new.keeps kept.new.text.items ≡ after (kept_text kept.old.keeps kept.old.text.items) text)) }
    ensures enough { IfOk result (λ _. HasNatives trial.now.accepted.now (length trial.now.kinds.now)) }
    ensures err { IfErr result (λ fault. RefusesBoot trial.now.accepted.now (length trial.now.kinds.now) fault) }
{
    let mut machine = booted(alloc, trial.accepted, boxes)?;
    let last = last_booted(alloc, trial, &mut machine, kept);
    drop(machine);
    last
}

/// Makes the natives of one run, and runs the image beside them to its end.
fn last_of(alloc: Global, trial: &Trial<'_>, kept: &mut CollectingSink) -> Result<RunEnd, Fault>
    requires limit { (1 ≤ trial.now.limit) × (trial.now.limit ≤ 1000000000) }
    requires timely { IsTimely trial.now.script.now.timed }
    ensures ok { IfOk result (λ last. (text : List ℕ) × IsLast trial.now.accepted.now (outside_of trial.now.script.now trial.now.limit (length trial.now.kinds.now)) last text × (kept_text kept.new.keeps kept.new.text.items ≡ after (kept_text kept.old.keeps kept.old.text.items) text)) }
    ensures enough { IfOk result (λ _. HasNatives trial.now.accepted.now (length trial.now.kinds.now)) }
    ensures err { IfErr result (λ fault. RefusesTry trial.now.accepted.now (length trial.now.kinds.now) fault) }
{
    let mut boxes: Vec<Box<dyn Native>> = Vec::new(alloc);
    for kind in trial.kinds {
        match *kind {
            NativeKind::Counter => boxes.push(Box::new(alloc, Counter::new())?)?,
            NativeKind::Line => boxes.push(Box::new(alloc, Line::new())?)?,
            NativeKind::Delay => boxes.push(Box::new(alloc, Delay::new())?)?,
        }
    }
    last_beside(alloc, trial, boxes, kept)
}

/// Runs the image once, with nothing but what its script says, and answers what there is to try.
fn plain_of(alloc: Global, trial: &Trial<'_>, marks: bool) -> Result<Plain, Fault>
    requires limit { (1 ≤ trial.now.limit) × (trial.now.limit ≤ 1000000000) }
    requires timely { IsTimely trial.now.script.now.timed }
    ensures ok { IfOk result (λ plain. HasPlain trial.now.accepted.now (outside_of trial.now.script.now trial.now.limit (length trial.now.kinds.now)) marks plain.last plain.times.items) }
    ensures times { IfOk result (λ plain. AreTimes plain.times.items) }
    ensures enough { IfOk result (λ _. HasNatives trial.now.accepted.now (length trial.now.kinds.now)) }
    ensures err { IfErr result (λ fault. RefusesTry trial.now.accepted.now (length trial.now.kinds.now) fault) }
{
    let mut kept = CollectingSink::new(alloc, marks);
    let last = last_of(alloc, trial, &mut kept)?;
    let times = times_of(alloc, kept.text.as_slice())?;
    Ok(Plain { last, times })
}

/// What is tried, by what the run does as it is.
fn plan_of(alloc: Global, trial: &Trial<'_>, tries: Tries) -> Result<Planned, Fault>
    requires limit { (1 ≤ trial.now.limit) × (trial.now.limit ≤ 1000000000) }
    requires timely { IsTimely trial.now.script.now.timed }
    ensures ok { IfOk result (λ planned. Plans trial.now.accepted.now trial.now.script.now trial.now.limit (length trial.now.kinds.now) tries planned.plain planned.plan.injections.items planned.plan.left) }
    ensures can { IfOk result (λ planned. All CanInject planned.plan.injections.items) }
    ensures enough { IfOk result (λ _. HasNatives trial.now.accepted.now (length trial.now.kinds.now)) }
    ensures err { IfErr result (λ fault. RefusesTry trial.now.accepted.now (length trial.now.kinds.now) fault) }
{
    let plain = plain_of(alloc, trial, tries.marks_times())?;
    let natives = trial.kinds.len();
    let plan = Plan::new(
        alloc,
        tries,
        natives,
        trial.script,
        plain.last.requests,
        plain.times.as_slice(),
    )?;
    Ok(Planned {
        plain: plain.last,
        plan,
    })
}

/// Runs the image under the script that says what befalls it too.
fn last_injected(alloc: Global, trial: &Trial<'_>, injection: Injection) -> Result<RunEnd, Fault>
    requires limit { (1 ≤ trial.now.limit) × (trial.now.limit ≤ 1000000000) }
    requires timely { IsTimely trial.now.script.now.timed }
    requires can { CanInject injection }
    requires enough { HasNatives trial.now.accepted.now (length trial.now.kinds.now) }
    ensures ok { IfOk result (λ last. (text : List ℕ) × IsLast trial.now.accepted.now (outside_of (injected injection trial.now.script.now) trial.now.limit (length trial.now.kinds.now)) last text) }
    ensures err { IfErr result (λ fault. fault ≡ Fault.Memory) }
{
    let script = injection.inject(alloc, trial.script)?;
    let given = Trial {
        accepted: trial.accepted,
        script: &script,
        limit: trial.limit,
        kinds: trial.kinds,
    };
    last_of(alloc, &given, &mut CollectingSink::new(alloc, false))
}

/// The line of a run: what befell it, how it ended, and a mark where that is not expected.
fn line_of(
    alloc: Global,
    words: &[u8],
    last: RunEnd,
    expected: &[ExpectedEnding],
) -> Result<Vec<u8>, AllocError>
    ensures { IfOk result (λ line. line.items ≡ run_line expected.now words.now last) }
{
    let mut page = Page::new();
    page.add_end(last.ending, last.cells);
    let end = without_feed(page.as_bytes());
    let mark = mark_of(expected, last.ending, last.cells);
    join_line(alloc, words, end, mark)
}

/// A line without its line feed.
fn without_feed(line: &[u8]) -> &[u8]
    requires { 1 ≤ length line.now }
    ensures { result.now ≡ take (length line.now - 1) line.now }
{
    &line[..line.len() - 1]
}

/// The line of these parts.
fn join_line(alloc: Global, words: &[u8], end: &[u8], mark: &[u8]) -> Result<Vec<u8>, AllocError>
    ensures { IfOk result (λ line. line.items ≡ ended (words.now ++ codes " " ++ end.now ++ mark.now)) }
{
    let mut line = Vec::from_slice(alloc, words)?;
    line.extend_from_slice(b" ")?;
    line.extend_from_slice(end)?;
    line.extend_from_slice(mark)?;
    line.extend_from_slice(b"\n")?;
    Ok(line)
}

/// Tells how the run as it is ended, and counts it.
fn tell_base<W: Sink>(
    alloc: Global,
    expected: &[ExpectedEnding],
    plain: RunEnd,
    out: &mut W,
) -> Result<Told, AllocError>
    ensures says { IfOk result (λ _. Says (run_line expected.now (codes "as it is") plain) (over W.out W.failed out.old out.new)) }
    ensures counts { IfOk result (λ told. told.outcome_counts ≡ outcomes_of (plain ∷ [])) }
    ensures unexpected { IfOk result (λ told. told.unexpected ≡ unexpected_among expected.now (plain ∷ [])) }
    ensures err { IfErr result (λ _. (W.out out.new ≡ W.out out.old) × (W.failed out.new ≡ W.failed out.old)) }
{
    let line = line_of(alloc, b"as it is", plain, expected)?;
    write_text(out, line.as_slice());
    let mut told = Told::new();
    told.count(plain, expected);
    Ok(told)
}

/// Tells how the run as it is ended, where that is asked, and begins to count.
fn begin<W: Sink>(
    alloc: Global,
    options: ExploreOptions<'_>,
    plain: RunEnd,
    out: &mut W,
) -> Result<Told, AllocError>
    ensures says { IfOk result (λ _. Says (base_line (exploration_of options.entry) plain) (over W.out W.failed out.old out.new)) }
    ensures counts { IfOk result (λ told. told.outcome_counts ≡ outcomes_of (told_runs (exploration_of options.entry) plain [])) }
    ensures unexpected { IfOk result (λ told. told.unexpected ≡ unexpected_among options.entry.expected.now (told_runs (exploration_of options.entry) plain [])) }
    ensures err { IfErr result (λ _. (W.out out.new ≡ W.out out.old) × (W.failed out.new ≡ W.failed out.old)) }
{
    let base = options.base;
    if base {
        tell_base(alloc, options.expected, plain, out)
    } else {
        Ok(Told::new())
    }
}

/// Runs the image with what befalls it, writes how that ended, and answers it.
fn try_one<W: Sink>(
    alloc: Global,
    trial: &Trial<'_>,
    injection: Injection,
    expected: &[ExpectedEnding],
    out: &mut W,
) -> Result<RunEnd, Fault>
    requires limit { (1 ≤ trial.now.limit) × (trial.now.limit ≤ 1000000000) }
    requires timely { IsTimely trial.now.script.now.timed }
    requires can { CanInject injection }
    requires enough { HasNatives trial.now.accepted.now (length trial.now.kinds.now) }
    ensures ok { IfOk result (λ last. (line : List ℕ) × Tried trial.now.accepted.now trial.now.script.now trial.now.limit (length trial.now.kinds.now) expected.now injection last line × Says line (over W.out W.failed out.old out.new)) }
    ensures err { IfErr result (λ fault. (fault ≡ Fault.Memory) × (W.out out.new ≡ W.out out.old) × (W.failed out.new ≡ W.failed out.old)) }
{
    let last = last_injected(alloc, trial, injection)?;
    let words = injection.text();
    let line = line_of(alloc, words.as_bytes(), last, expected)?;
    write_text(out, line.as_slice());
    Ok(last)
}

/// Tells how the run as it is ended, where that is asked, and tries each of these in turn, and counts how they end. It stops where the sink fails.
fn try_all<W: Sink>(
    alloc: Global,
    trial: &Trial<'_>,
    options: ExploreOptions<'_>,
    plain: RunEnd,
    injections: &[Injection],
    out: &mut W,
) -> Result<Told, Fault>
    requires limit { (1 ≤ trial.now.limit) × (trial.now.limit ≤ 1000000000) }
    requires timely { IsTimely trial.now.script.now.timed }
    requires can { All CanInject injections.now }
    requires enough { HasNatives trial.now.accepted.now (length trial.now.kinds.now) }
    ensures ok { IfOk result (λ told. TriesAll trial.now.accepted.now trial.now.script.now trial.now.limit (length trial.now.kinds.now) (exploration_of options.entry) plain injections.now told.outcome_counts told.unexpected (over W.out W.failed out.old out.new)) }
    ensures err { IfErr result (λ fault. (fault ≡ Fault.Memory) × (IsSilent (over W.out W.failed out.old out.new) ⊎ Begun trial.now.accepted.now trial.now.script.now trial.now.limit (length trial.now.kinds.now) (exploration_of options.entry) plain injections.now (over W.out W.failed out.old out.new))) }
{
    let mut told = begin(alloc, options, plain, out)?;
    let mut place = 0;
    while place < injections.len() && !out.has_failed() {
        let last = try_one(alloc, trial, injections[place], options.expected, out)?;
        told.count(last, options.expected);
        place += 1;
    }
    Ok(told)
}

/// Writes the closing lines, where they are asked for, unless the sink has failed.
fn close<W: Sink>(options: ExploreOptions<'_>, told: &Told, left: Option<Injection>, out: &mut W)
    ensures says { W.failed out.old ≡ false → Says (closing (exploration_of options.entry) left told.now.outcome_counts told.now.unexpected) (over W.out W.failed out.old out.new) }
    ensures stays { W.failed out.old ≡ true → (W.out out.new ≡ W.out out.old) × (W.failed out.new ≡ true) }
{
    if !options.tells_counts() || out.has_failed() {
        return;
    }
    let closing = told.outcome_counts.closing(left, told.judged(options));
    write_text(out, closing.as_bytes());
}

/// Runs the image once as it is, and then once for each of the tries, and answers how many of those that are told did not end as expected. It writes a
/// line for each try, and for the run as it is where that is asked, and at the end what was counted, where that is told. It stops where the sink fails.
fn explore<W: Sink>(
    alloc: Global,
    trial: &Trial<'_>,
    options: ExploreOptions<'_>,
    out: &mut W,
) -> Result<usize, Fault>
    requires limit { (1 ≤ trial.now.limit) × (trial.now.limit ≤ 1000000000) }
    requires timely { IsTimely trial.now.script.now.timed }
    ensures ok { IfOk result (λ unexpected. Explored trial.now.accepted.now trial.now.script.now trial.now.limit (length trial.now.kinds.now) (exploration_of options.entry) unexpected (over W.out W.failed out.old out.new)) }
    ensures enough { IfOk result (λ _. HasNatives trial.now.accepted.now (length trial.now.kinds.now)) }
    ensures err { IfErr result (λ fault. BreaksOff trial.now.accepted.now trial.now.script.now trial.now.limit (length trial.now.kinds.now) (exploration_of options.entry) (over W.out W.failed out.old out.new) fault) }
{
    let planned = plan_of(alloc, trial, options.tries)?;
    let injections = planned.plan.injections.as_slice();
    let told = try_all(alloc, trial, options, planned.plain, injections, out)?;
    close(options, &told, planned.plan.left, out);
    Ok(told.unexpected)
}

/// Runs an image under a script, once for each of the tries, with what befalls it then, and writes how each of these runs ended. Each has
/// natives of its own, of those kinds. The image is looked at before the script, and the script before the natives.
pub fn explore_bytes<W: Sink, E: Sink>(
    alloc: Global,
    image: &[u8],
    script: &[u8],
    limit: u32,
    kinds: &[NativeKind],
    tries: Tries,
    out: &mut W,
    errors: &mut E,
) -> ExitStatus
    requires limit { (1 ≤ limit) × (limit ≤ 1000000000) }
    ensures { ExploreAnswers image.now script.now limit (length kinds.now) tries (over W.out W.failed out.old out.new) (over E.out E.failed errors.old errors.new) result }
{
    let options = ExploreOptions::of_tries(tries);
    explore_bytes_with(alloc, image, script, limit, kinds, options, out, errors)
}

/// Explores as `explore_bytes` does, tells the run as it is too where that is asked, and judges how the runs that are told ended where some ends are
/// expected. The status is `Unfinished` where all were told and one has ended otherwise.
pub fn explore_bytes_with<W: Sink, E: Sink>(
    alloc: Global,
    image: &[u8],
    script: &[u8],
    limit: u32,
    kinds: &[NativeKind],
    options: ExploreOptions<'_>,
    out: &mut W,
    errors: &mut E,
) -> ExitStatus
    requires limit { (1 ≤ limit) × (limit ≤ 1000000000) }
    ensures { ExploreAnswersOf image.now script.now limit (length kinds.now) (exploration_of options.entry) (over W.out W.failed out.old out.new) (over E.out E.failed errors.old errors.new) result }
{
    match accept_bytes(alloc, image) {
        Ok(accepted) => {
            let found = explore_text(alloc, &accepted, script, limit, kinds, options, out);
            drop(accepted);
            answer(found, errors)
        }
        Err(refusal) => report(&refusal, errors),
    }
}

/// Explores an accepted image under the script that a text is.
fn explore_text<W: Sink>(
    alloc: Global,
    accepted: &Accepted,
    text: &[u8],
    limit: u32,
    kinds: &[NativeKind],
    options: ExploreOptions<'_>,
    out: &mut W,
) -> Result<ExitStatus, Fault>
    requires limit { (1 ≤ limit) × (limit ≤ 1000000000) }
    ensures { (bytes : List ℕ) → IsSerialized bytes accepted.now → Unreported (AcceptedExplores bytes text.now limit (length kinds.now) (exploration_of options.entry) (over W.out W.failed out.old out.new)) result }
{
    accepted.facts();
    let script = match read_script(alloc, text) {
        Ok(script) => script,
        Err(fault) => return Err(Fault::from(fault)),
    };
    let trial = Trial {
        accepted,
        script: &script,
        limit,
        kinds,
    };
    explore_script(alloc, &trial, options, out)
}

/// Explores an accepted image under a script.
fn explore_script<W: Sink>(
    alloc: Global,
    trial: &Trial<'_>,
    options: ExploreOptions<'_>,
    out: &mut W,
) -> Result<ExitStatus, Fault>
    requires limit { (1 ≤ trial.now.limit) × (trial.now.limit ≤ 1000000000) }
    requires timely { IsTimely trial.now.script.now.timed }
    ensures { (bytes text : List ℕ) → IsSerialized bytes trial.now.accepted.now → denoted text ≡ Ok trial.now.script.now → Unreported (AcceptedExplores bytes text trial.now.limit (length trial.now.kinds.now) (exploration_of options.entry) (over W.out W.failed out.old out.new)) result }
{
    trial.accepted.facts();
    runs_well(trial.accepted);
    match explore(alloc, trial, options, out) {
        Ok(unexpected) => status_of_runs(unexpected, out),
        Err(fault) => Err(fault),
    }
}

/// The status where so many runs did not end as expected, unless the sink has failed.
fn status_of_runs<W: Sink>(unexpected: usize, out: &W) -> Result<ExitStatus, Fault>
    ensures failed { W.failed out.now ≡ true → result ≡ Err Fault.Write }
    ensures none { W.failed out.now ≡ false → unexpected ≡ 0 → result ≡ Ok ExitStatus.Done }
    ensures some { W.failed out.now ≡ false → 0 < unexpected → result ≡ Ok ExitStatus.Unfinished }
{
    if out.has_failed() {
        return Err(Fault::Write);
    }
    if unexpected > 0 {
        return Ok(ExitStatus::Unfinished);
    }
    Ok(ExitStatus::Done)
}
