//! Destruction: a cell is at hand, of a server the sessions with it go first, its destructor runs, and then it goes.
ghost use Rattle.std.specs.Prelude.{◌≡◌, ◌<◌, ◌+◌, ◌∷◌, ◌^◌, ℕ, List, IfSome, IsSome, Some, length, false, true};
ghost use Rattle.aom_image.specs.Image.{Image};
ghost use Rattle.aom_image.specs.Views.{method_at};
ghost use Rattle.aom_cells.specs.Heap.{Lives, class_at};
ghost use Rattle.aom_instructions.specs.declared.instr.Instr.TheVariants.{Delete};
ghost use Rattle.aom_clients.specs.Clients.{queue_at};
ghost use Rattle.aom_frames.specs.Tasks.{TopFrameIs, place_here, below_first};
ghost use Rattle.aom_frames.specs.declared.task.Task.{Task as TaskRecord};
ghost use Rattle.aom_frames.specs.declared.task.Task.TheVariants.{Destroy};
ghost use Rattle.aom_frames.specs.Views.{view_in};
ghost use Rattle.aom_semantics.specs.Destruction.{next_destructor};
ghost use Rattle.aom_machine_instructions.specs.Acts.{CanGo, DoesIn, GoesAway, GoesAwayIn, going_at, standing};
ghost use Rattle.aom_machine_instructions.specs.declared.after.After.TheVariants.{CellGoes, RunsOn};
ghost use Rattle.aom_machine_state.specs.Places.{next, with_tasks, IsClosing, IsDestroying, going_here};
ghost use Rattle.aom_machine_instructions.specs.Going.{begun, destructed, destructor_frame, destructor_in, dying, is_dispatched_class, is_server_class, root_removed};
ghost use Rattle.aom_machine_instructions.specs.Moves.{Moves};
ghost use Rattle.aom_machine_instructions.specs.Next.{IsNext};
ghost use Rattle.aom_machine_instructions.specs.Serving.{CanReclaim, answers};
ghost use Rattle.aom_machine_state.specs.LineBuffer.{LineBuffer as LineBufferRecord};
ghost use Rattle.aom_machine_state.specs.Stands.{Stands};

use crate::after::After;
use crate::servers;
use aom_cells::NULL;
use aom_frames::{Dispatch, Frame, Task, TaskKind, View};
use aom_image::{ClassNumber, MethodNumber, Register, Role};
use aom_linker::Linked;
use aom_machine_state::{LineBuffer, Parts};
use aom_roles::{parent_of, sessions_at};
use aom_transcript::Line;

/// As the class that a method is of.
fn view_in(class: Option<ClassNumber>) -> View
    ensures { result ≡ view_in class }
{
    match class {
        Some(class) => View::above(class),
        None => View::own(),
    }
}

/// The frame of a destructor: while it runs the object counts as the class that the destructor is of.
fn destructor_frame(destructor: MethodNumber, number: u32, linked: &Linked) -> Frame
    requires there { IsSome (method_at linked.now destructor) }
    ensures { result ≡ destructor_frame linked.now destructor number }
{
    let view = view_in(linked.method(destructor).class);
    Frame::begin(destructor, number).counting_as(view)
}

/// The destructor of a cell of that class runs over the tasks at hand, if it has one.
fn destruct(parts: &mut Parts, number: u32, class: ClassNumber, linked: &Linked)
    requires room { length parts.old.stack.tasks < parts.old.stack.depth }
    ensures { parts.new ≡ with_tasks (destructed linked.now (destructor_in linked.now (Some class)) number parts.old.stack.tasks) parts.old }
{
    if let Some(destructor) = linked.role(class, Role::Destruct) {
        parts
            .stack
            .push(Task::Run(destructor_frame(destructor, number, linked)));
    }
}

/// The destructor that follows one in its line: that of the nearest class above its own which has one.
fn next_destructor(destructor: MethodNumber, linked: &Linked) -> Option<MethodNumber>
    requires { IsSome (method_at linked.now destructor) }
    ensures { result ≡ next_destructor linked.now destructor }
{
    match linked.method(destructor).class {
        Some(class) => match parent_of(linked.image(), class) {
            Some(parent) => linked.role(parent, Role::Destruct),
            None => None,
        },
        None => None,
    }
}

/// A destructor of a cell is over: the next of its line runs, if there is one.
pub fn continue_destruction(
    parts: &mut Parts,
    destructor: MethodNumber,
    number: u32,
    linked: &Linked,
)
    requires there { IsSome (method_at linked.now destructor) }
    requires room { length parts.old.stack.tasks < parts.old.stack.depth }
    ensures { parts.new ≡ with_tasks (destructed linked.now (next_destructor linked.now destructor) number parts.old.stack.tasks) parts.old }
{
    if let Some(next) = next_destructor(destructor, linked) {
        parts
            .stack
            .push(Task::Run(destructor_frame(next, number, linked)));
    }
}

/// Whether the objects of a class are servers.
pub fn is_server(class: ClassNumber, linked: &Linked) -> bool
    ensures { result ≡ is_server_class linked.now (Some class) }
{
    sessions_at(linked.image(), class).is_some()
}

/// The destruction of that cell is at hand. Over it its destructor runs, if it has one; of a server the sessions with it are at hand to go.
#[inline(always)]
pub fn begin(parts: &mut Parts, number: u32, linked: &Linked)
    requires lives { Lives parts.old.cells number }
    requires small { IfSome (class_at parts.old.cells number) (λ class. class < 256) }
    requires room { length parts.old.stack.tasks + 1 < parts.old.stack.depth }
    ensures { parts.new ≡ with_tasks (dying linked.now parts.old.cells number parts.old.stack.tasks) parts.old }
{
    let class = parts.class(number);
    parts.stack.push(Task::Destroy(number));
    if is_server(class, linked) {
        parts.stack.push(Task::Closing);
    } else {
        destruct(parts, number, class, linked);
    }
}

/// Whether objects of a class are dispatched.
#[inline(always)]
fn is_dispatched(class: ClassNumber, linked: &Linked) -> bool
    ensures { result ≡ is_dispatched_class linked.now (Some class) }
{
    match linked
        .image()
        .classes()
        .as_slice()
        .get(class.number() as usize)
    {
        Some(class) => class.kind.is_dispatched(),
        None => false,
    }
}

/// Whether an object of that class goes with nothing before it, and nothing with it: it is not dispatched, and has no destructor.
#[inline(always)]
fn goes_alone(class: ClassNumber, linked: &Linked) -> bool
    ensures begun { result ≡ true → (number : ℕ) (tasks : List TaskRecord) → begun linked.now (Some class) number tasks ≡ Destroy number ∷ tasks }
    ensures alone { result ≡ true → is_dispatched_class linked.now (Some class) ≡ false }
{
    match linked.role(class, Role::Destruct) {
        None => !is_dispatched(class, linked),
        Some(_) => false,
    }
}

/// The object in a register goes, if there is one. Where nothing runs before that, its task is left to who asks.
#[inline(always)]
pub fn delete(parts: &mut Parts, from: Register, linked: &Linked) -> After
    requires { IsNext linked.now (Delete from) parts.old }
    ensures does { (refused : List ℕ) → DoesIn linked.now refused (Delete from) parts.old (standing result parts.new) }
    ensures runs { result ≡ RunsOn → TopFrameIs parts.new.stack.tasks }
    ensures goes { (number : ℕ) → result ≡ CellGoes number → CanGo linked.now number parts.new }
{
    let number = parts.take_register(from);
    if number == NULL {
        parts.next();
        return After::RunsOn;
    }
    if goes_alone(parts.class(number), linked) {
        return After::CellGoes(number);
    }
    begin(parts, number, linked);
    After::Other
}

/// The root is at hand to go, and nothing else is.
pub fn remove_root(parts: &mut Parts, linked: &Linked)
    requires lives { Lives parts.old.cells parts.old.root }
    requires small { IfSome (class_at parts.old.cells parts.old.root) (λ class. class < 256) }
    requires room { length (below_first parts.old.stack.tasks) + 2 < parts.old.stack.depth }
    ensures { parts.new ≡ root_removed linked.now parts.old }
{
    let root = parts.root;
    parts.root = NULL;
    parts.rest.tick();
    parts.drop_task();
    parts.stack.push(Task::Dispatched(Dispatch::Root));
    begin(parts, root, linked);
}

/// The method that is at hand goes on, if there is one.
fn resume(parts: &mut Parts)
    requires { place_here parts.old.stack.tasks + 1 < 2 ^ 64 }
    ensures { parts.new ≡ next parts.old }
{
    if parts.is_running() {
        parts.next();
    }
}

/// The number of the cell whose destruction is at hand.
fn going_number(parts: &Parts) -> u32
    requires { IsDestroying parts.now.stack.tasks }
    ensures { result ≡ going_here parts.now.stack.tasks }
{
    let Some(kind) = parts.stack.top() else {
        unreachable!();
    };
    match kind {
        TaskKind::Destroy(number) => number,
        _ => unreachable!(),
    }
}

/// The first session with the server whose going is at hand goes before it, and once none is left the server's destructor runs.
pub fn close_next_session(parts: &mut Parts, linked: &Linked)
    requires closing { IsClosing parts.old.stack.tasks }
    requires announced { parts.old.rest.announced ≡ true }
    requires stands { Stands (record { image = linked.now; parts = parts.old }) }
    ensures { (reported : LineBufferRecord) → Moves linked.now parts.old reported reported parts.new }
{
    parts.drop_task();
    let number = going_number(parts);
    match servers::take_session(parts, number as u16) {
        Some(session) => {
            parts.stack.push(Task::Closing);
            begin(parts, session, linked);
        }
        None => {
            let class = parts.class(number);
            destruct(parts, number, class, linked);
        }
    }
}

/// The cell of that number goes, and with a server all that waits in its queue. The method that is at hand goes on, if there is one.
/// The task of its going is not on the stack.
#[inline(always)]
pub fn reclaim(parts: &mut Parts, number: u32, lines: &mut LineBuffer)
    requires lives { Lives parts.old.cells number }
    requires small { IfSome (class_at parts.old.cells number) (λ class. class < 256) }
    requires reclaims { CanReclaim number parts.old }
    requires within { place_here parts.old.stack.tasks + 1 < 2 ^ 64 }
    requires room { length lines.old.lines + answers (queue_at parts.old.clients number) < lines.old.room }
    ensures gone { GoesAway (going_at number parts.old) parts.new lines.old lines.new }
    ensures runs { TopFrameIs parts.old.stack.tasks → TopFrameIs parts.new.stack.tasks }
{
    servers::end_server(parts, number as u16, lines);
    let class = parts.release(number);
    lines.push(Line::Gone(class));
    resume(parts);
}

/// The cell of that number goes over the method that runs, of a class whose objects are not dispatched: so it is not enlisted, and nothing
/// waits at it. The method goes on. The task of its going is not on the stack.
#[inline(always)]
pub fn reclaim_alone(parts: &mut Parts, number: u32, lines: &mut LineBuffer)
    requires lives { Lives parts.old.cells number }
    requires small { IfSome (class_at parts.old.cells number) (λ class. class < 256) }
    requires runs { TopFrameIs parts.old.stack.tasks }
    requires within { place_here parts.old.stack.tasks + 1 < 2 ^ 64 }
    requires room { length lines.old.lines < lines.old.room }
    ensures gone { (p : Image) → is_dispatched_class p (class_at parts.old.cells number) ≡ false → GoesAwayIn p (going_at number parts.old) parts.new lines.old lines.new }
    ensures runs { TopFrameIs parts.new.stack.tasks }
{
    let class = parts.class(number);
    let id = parts.cells.living(number);
    parts.sessions.close(id);
    parts.cells.release(id);
    lines.push(Line::Gone(class));
    parts.next();
}
