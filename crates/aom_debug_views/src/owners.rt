//! The map of owners.
ghost use Rattle.std.specs.Prelude.{◌≡◌, ℕ, ◌<◌, ◌≤◌, IfErr, IfOk, cond, length, slice_index_or};
ghost use Rattle.aom_cells.specs.Heap.{null};
ghost use Rattle.aom_frames.specs.Items.{entry_in, owned_by};
ghost use Rattle.aom_machine.specs.Agreement.{AgreesInAll};
ghost use Rattle.aom_image.specs.Image.{Image};
ghost use Rattle.aom_machine_state.specs.Places.{going_in, going_of};
ghost use Rattle.aom_machine_state.specs.Stands.{Stands, Refines};
ghost use Rattle.aom_abstract_state.specs.Kinds.{register as kind_in};
ghost use Rattle.aom_semantics.specs.Owned.{over};
ghost use Rattle.aom_semantics.specs.Places.{Register};
ghost use Rattle.aom_semantics.specs.State.{State};
ghost use Rattle.aom_debug_views.specs.Laws.{SessionsApart};
ghost use Rattle.aom_debug_views.specs.Owners.{In_register, ShowsAll, ShowsIf, entries_map, entries_of, frame_in, frame_over, frame_registers, goings_in, goings_map, grown, is_entry, is_frame, is_going, may_own, owners, owners_text, registers_map};
ghost use Rattle.aom_debug_views.specs.Reporting.{Reports, ReportsPart};

use crate::cleanup::item_at;
use crate::tree::report_place;
use crate::way;
use aom_abstract_state::{AbstractState, Kind};
use aom_budget::Accepted;
use aom_cells::NULL;
use aom_debug_protocol::DebugFault;
use aom_debug_symbols::SourceNames;
use aom_frames::{Frame, Item, Task};
use aom_machine_state::Parts;
use aom_transcript::Sink;
use aom_verify::Checked;

/// Whether a register may own an object.
pub(crate) fn may_own(shape: &AbstractState<'_>, register: u8) -> bool
    requires { register < 16 }
    ensures { result ≡ may_own (kind_in shape.now register) }
{
    matches!(
        shape.kind_at(register as usize),
        Kind::Own(_, _) | Kind::Maybe(_, _)
    )
}

/// Tells what hangs from a register of the frame over so many others, which stands at that depth.
fn report_register<W: Sink>(
    parts: &Parts,
    shape: &AbstractState<'_>,
    frame: &Frame,
    frames: usize,
    register: u8,
    names: &SourceNames,
    out: &mut W,
) -> Result<(), DebugFault>
    requires register { register < 16 }
    requires stands { (p : Image) × Stands (record { image = p; parts = parts.now }) }
    ensures ok { IfOk result (λ _. (p : Image) (depth : ℕ) → ShowsIf (may_own (kind_in shape.now register)) (record { image = p; parts = parts.now }) (slice_index_or frame.now.registers register null) (Register depth register) → Reports (record { image = p; parts = parts.now }) (λ s. owners_text names.now (grown s.cells (In_register frames register) (Register depth register))) (W.out out.old) (W.out out.new)) }
    ensures err { IfErr result (λ fault. (p : Image) (depth : ℕ) → ShowsIf (may_own (kind_in shape.now register)) (record { image = p; parts = parts.now }) (slice_index_or frame.now.registers register null) (Register depth register) → ReportsPart (record { image = p; parts = parts.now }) (λ s. owners_text names.now (grown s.cells (In_register frames register) (Register depth register))) fault (W.failed out.new) (W.out out.old) (W.out out.new)) }
{
    if may_own(shape, register) {
        report_place(
            parts,
            way::register(frames, register),
            frame.register(register),
            names,
            out,
        )
    } else {
        Ok(())
    }
}

/// Tells what hangs from the registers of a frame.
fn report_frame<W: Sink>(
    parts: &Parts,
    shape: &AbstractState<'_>,
    frame: &Frame,
    frames: usize,
    names: &SourceNames,
    out: &mut W,
) -> Result<(), DebugFault>
    requires stands { (p : Image) × Stands (record { image = p; parts = parts.now }) }
    ensures ok { IfOk result (λ _. (p : Image) (depth : ℕ) → ShowsAll (record { image = p; parts = parts.now }) shape.now frame.now.registers depth → Reports (record { image = p; parts = parts.now }) (λ s. owners_text names.now (frame_registers s.cells depth frames 16)) (W.out out.old) (W.out out.new)) }
    ensures err { IfErr result (λ fault. (p : Image) (depth : ℕ) → ShowsAll (record { image = p; parts = parts.now }) shape.now frame.now.registers depth → ReportsPart (record { image = p; parts = parts.now }) (λ s. owners_text names.now (frame_registers s.cells depth frames 16)) fault (W.failed out.new) (W.out out.old) (W.out out.new)) }
{
    for register in 0..16u8 {
        report_register(parts, shape, frame, frames, register, names, out)?;
    }
    Ok(())
}

/// The frame that a task is, if it is one.
fn frame_in(task: &Task) -> Option<Frame>
    ensures { result ≡ frame_in task.now }
{
    match task {
        Task::Run(frame) => Some(*frame),
        _ => None,
    }
}

/// The frame at a depth, if one stands there.
pub(crate) fn frame_at(parts: &Parts, depth: usize) -> Option<Frame>
    ensures { result ≡ frame_over (over parts.now.stack.tasks depth) }
{
    match parts.stack.task(depth) {
        Some(task) => frame_in(&task),
        None => None,
    }
}

/// How many frames stand at a depth.
pub fn frames_at(parts: &Parts, depth: usize) -> usize
    ensures few { result ≤ 1 }
    ensures value { (p : Image) (s : State) → Refines (record { image = p; parts = parts.now }) s → result ≡ cond (is_frame (over s.tasks depth)) 1 0 }
{
    match frame_at(parts, depth) {
        Some(_) => 1,
        None => 0,
    }
}

/// Tells what hangs from the registers at a depth.
fn report_task<W: Sink>(
    parts: &Parts,
    checked: &Checked,
    depth: usize,
    frames: usize,
    names: &SourceNames,
    out: &mut W,
) -> Result<(), DebugFault>
    requires stands { Stands (record { image = checked.now; parts = parts.now }) }
    requires agrees { AgreesInAll (record { image = checked.now; parts = parts.now }) }
    ensures ok { IfOk result (λ _. Reports (record { image = checked.now; parts = parts.now }) (λ s. owners_text names.now (frame_registers s.cells depth frames 16)) (W.out out.old) (W.out out.new)) }
    ensures err { IfErr result (λ fault. ReportsPart (record { image = checked.now; parts = parts.now }) (λ s. owners_text names.now (frame_registers s.cells depth frames 16)) fault (W.failed out.new) (W.out out.old) (W.out out.new)) }
{
    let Some(frame) = frame_at(parts, depth) else {
        return Ok(());
    };
    match checked.shape(frame.method, frame.place) {
        Some(shape) => report_frame(parts, &shape, &frame, frames, names, out),
        None => Ok(()),
    }
}

/// Tells what hangs from the registers of the methods at hand, the outermost first.
fn report_registers<W: Sink>(
    parts: &Parts,
    checked: &Checked,
    names: &SourceNames,
    out: &mut W,
) -> Result<(), DebugFault>
    requires stands { Stands (record { image = checked.now; parts = parts.now }) }
    requires agrees { AgreesInAll (record { image = checked.now; parts = parts.now }) }
    ensures ok { IfOk result (λ _. Reports (record { image = checked.now; parts = parts.now }) (λ s. owners_text names.now (registers_map s (length s.tasks))) (W.out out.old) (W.out out.new)) }
    ensures err { IfErr result (λ fault. ReportsPart (record { image = checked.now; parts = parts.now }) (λ s. owners_text names.now (registers_map s (length s.tasks))) fault (W.failed out.new) (W.out out.old) (W.out out.new)) }
{
    let mut frames = 0;
    for depth in 0..parts.stack.len() {
        report_task(parts, checked, depth, frames, names, out)?;
        frames += frames_at(parts, depth);
    }
    Ok(())
}

/// The number of what an item owns, and null where it owns nothing.
fn owned_by(item: Item) -> u32
    ensures { result ≡ owned_by item }
{
    match item {
        Item::Object(number) => number,
        Item::Operation(_, _) | Item::Mark => NULL,
    }
}

/// One for an entry, and none for a mark.
fn entries_of(item: Item) -> usize
    ensures { result ≡ entries_of item }
{
    match item {
        Item::Object(_) | Item::Operation(_, _) => 1,
        Item::Mark => 0,
    }
}

/// The number of what that item owns, and null where it owns nothing.
pub(crate) fn item_number(parts: &Parts, height: usize) -> u32
    requires { height < length parts.now.entries.items }
    ensures { result ≡ entry_in parts.now.entries.items height }
{
    match item_at(parts, height) {
        Some(item) => owned_by(item),
        None => NULL,
    }
}

/// How many entries that item is.
pub fn entries_at(parts: &Parts, height: usize) -> usize
    requires { height < length parts.now.entries.items }
    ensures few { result ≤ 1 }
    ensures value { (p : Image) (s : State) → Refines (record { image = p; parts = parts.now }) s → result ≡ cond (is_entry (over s.items height)) 1 0 }
{
    match item_at(parts, height) {
        Some(item) => entries_of(item),
        None => 0,
    }
}

/// Tells what hangs from the entries of the cleanup stack, the lowest first.
fn report_entries<W: Sink>(
    parts: &Parts,
    names: &SourceNames,
    out: &mut W,
) -> Result<(), DebugFault>
    requires stands { (p : Image) × Stands (record { image = p; parts = parts.now }) }
    ensures ok { IfOk result (λ _. (p : Image) → Reports (record { image = p; parts = parts.now }) (λ s. owners_text names.now (entries_map s (length s.items))) (W.out out.old) (W.out out.new)) }
    ensures err { IfErr result (λ fault. (p : Image) → ReportsPart (record { image = p; parts = parts.now }) (λ s. owners_text names.now (entries_map s (length s.items))) fault (W.failed out.new) (W.out out.old) (W.out out.new)) }
{
    let mut entries = 0;
    for height in 0..parts.entries.len() {
        report_place(
            parts,
            way::entry(entries),
            item_number(parts, height),
            names,
            out,
        )?;
        entries += entries_at(parts, height);
    }
    Ok(())
}

/// The number of what a task lets go, and null where it lets nothing go.
fn going_of(task: &Task) -> u32
    ensures { result ≡ going_of task.now }
{
    match task {
        Task::Destroy(number) => *number,
        _ => NULL,
    }
}

/// One for a destruction.
fn goings_in(task: &Task) -> usize
    ensures { result ≡ goings_in task.now }
{
    match task {
        Task::Destroy(_) => 1,
        _ => 0,
    }
}

/// The number of what the task at a depth lets go, and null where it lets nothing go.
pub(crate) fn going_number(parts: &Parts, depth: usize) -> u32
    ensures { result ≡ going_in parts.now.stack.tasks depth }
{
    match parts.stack.task(depth) {
        Some(task) => going_of(&task),
        None => NULL,
    }
}

/// How many destructions stand at a depth.
pub fn goings_at(parts: &Parts, depth: usize) -> usize
    ensures few { result ≤ 1 }
    ensures value { (p : Image) (s : State) → Refines (record { image = p; parts = parts.now }) s → result ≡ cond (is_going (over s.tasks depth)) 1 0 }
{
    match parts.stack.task(depth) {
        Some(task) => goings_in(&task),
        None => 0,
    }
}

/// Tells what hangs from the destructions at hand, the outermost first.
fn report_goings<W: Sink>(parts: &Parts, names: &SourceNames, out: &mut W) -> Result<(), DebugFault>
    requires stands { (p : Image) × Stands (record { image = p; parts = parts.now }) }
    ensures ok { IfOk result (λ _. (p : Image) → Reports (record { image = p; parts = parts.now }) (λ s. owners_text names.now (goings_map s (length s.tasks))) (W.out out.old) (W.out out.new)) }
    ensures err { IfErr result (λ fault. (p : Image) → ReportsPart (record { image = p; parts = parts.now }) (λ s. owners_text names.now (goings_map s (length s.tasks))) fault (W.failed out.new) (W.out out.old) (W.out out.new)) }
{
    let mut goings = 0;
    for depth in 0..parts.stack.len() {
        report_place(
            parts,
            way::going(goings),
            going_number(parts, depth),
            names,
            out,
        )?;
        goings += goings_at(parts, depth);
    }
    Ok(())
}

/// Tells the map of owners, a line for each object and message that is owned, with the way to it: the root's, those of the
/// registers, of the cleanup stack, of the service at hand and of destructions, and below each object those of its fields and
/// of its sessions. What waits in the queue of a server has no line.
pub fn report_owners<W: Sink>(
    parts: &Parts,
    accepted: &Accepted,
    names: &SourceNames,
    out: &mut W,
) -> Result<(), DebugFault>
    requires stands { Stands (record { image = accepted.now; parts = parts.now }) }
    requires agrees { AgreesInAll (record { image = accepted.now; parts = parts.now }) }
    ensures apart { SessionsApart parts.now }
    ensures ok { IfOk result (λ _. Reports (record { image = accepted.now; parts = parts.now }) (λ s. owners_text names.now (owners s)) (W.out out.old) (W.out out.new)) }
    ensures err { IfErr result (λ fault. ReportsPart (record { image = accepted.now; parts = parts.now }) (λ s. owners_text names.now (owners s)) fault (W.failed out.new) (W.out out.old) (W.out out.new)) }
{
    parts.clients.are_apart();
    report_place(parts, way::root(), parts.root, names, out)?;
    report_registers(parts, accepted.checked(), names, out)?;
    report_entries(parts, names, out)?;
    report_place(parts, way::service(), parts.served, names, out)?;
    report_goings(parts, names, out)
}
