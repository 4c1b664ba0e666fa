//! What the machine keeps, as it begins. All the memory that is ever taken is taken here.
ghost use Rattle.std.specs.Prelude.{◌≡◌, ◌≤◌, [], ◌∷◌, None, IfOk, false, replicate};
ghost use Rattle.aom_active_objects.specs.Agrees.{RefinesRequests};
ghost use Rattle.aom_cells.specs.Heap.{null};
ghost use Rattle.aom_frames.specs.declared.item.Item.TheVariants.{Mark};
ghost use Rattle.aom_clients.specs.Clients.{at_first};
ghost use Rattle.aom_frames.specs.Tasks.{fresh};
ghost use Rattle.aom_frames.specs.declared.dispatch.Dispatch.TheVariants.{Main};
ghost use Rattle.aom_frames.specs.declared.task.Task.TheVariants.{Dispatched, Run, Trapped};
ghost use Rattle.aom_clients.specs.Lists.{empty as no_list};
ghost use Rattle.aom_cells.specs.Tokens.{none_of};

use aom_active_objects::ActiveObjects;
use aom_cells::{Cells, Messages, NULL, Sessions, Tokens};
use aom_clients::{Clients, Lists};
use aom_frames::{Cleanup, Dispatch, Frame, Task, Tasks};
use aom_image::MethodNumber;
use std::alloc::{AllocError, Global};

/// How many tasks may be at hand. Methods are at most 257, each over at most three tasks that are none.
const DEPTH: usize = 2048;

/// How many cleanup entries there may be.
const ENTRIES: usize = 1024;

/// How many classes there may be.
const CLASSES: usize = 256;

/// What is at hand, and the cleanup entries.
#[derive(Drop)]
pub(crate) struct TaskStacks {
    pub(crate) stack: Tasks,
    pub(crate) entries: Cleanup,
}

impl TaskStacks {
    /// Main under the trap of its dispatch.
    pub(crate) fn begin(alloc: Global, main: MethodNumber) -> Result<TaskStacks, AllocError>
        ensures tasks { IfOk result (λ c. c.stack.tasks ≡ Run (fresh main null) ∷ Trapped ∷ Dispatched Main ∷ []) }
        ensures depth { IfOk result (λ c. c.stack.depth ≡ 2048) }
        ensures entries { IfOk result (λ c. c.entries ≡ record { items = Mark ∷ []; depth = 1024 }) }
    {
        let mut entries = Cleanup::with_depth(alloc, ENTRIES)?;
        entries.mark();
        let mut stack = Tasks::with_depth(alloc, DEPTH)?;
        stack.push(Task::Dispatched(Dispatch::Main));
        stack.push(Task::Trapped);
        stack.push(Task::Run(Frame::begin(main, NULL)));
        Ok(TaskStacks { stack, entries })
    }
}

/// The cells, which of them have a session, and the requests of active objects.
#[derive(Drop)]
pub(crate) struct Objects {
    pub(crate) cells: Cells,
    pub(crate) sessions: Sessions,
    pub(crate) active: ActiveObjects,
}

impl Objects {
    /// No cell lives, no session is open, and nothing is enlisted.
    pub(crate) fn with_limit(alloc: Global, limit: usize) -> Result<Objects, AllocError>
        requires { limit ≤ 4096 }
        ensures cells { IfOk result (λ o. o.cells ≡ record { slots = []; limit = limit }) }
        ensures sessions { IfOk result (λ o. o.sessions ≡ record { flags = replicate limit false; killed = [] }) }
        ensures requests { IfOk result (λ o. RefinesRequests o.active (λ n. None) (λ n. None)) }
        ensures numbers { IfOk result (λ o. o.active.table.limit ≡ limit) }
    {
        Ok(Objects {
            cells: Cells::with_limit(alloc, limit)?,
            sessions: Sessions::with_limit(alloc, limit)?,
            active: none_enlisted(alloc, limit)?,
        })
    }
}

/// No active object and no server.
fn none_enlisted(alloc: Global, cells: usize) -> Result<ActiveObjects, AllocError>
    requires { cells ≤ 4096 }
    ensures requests { IfOk result (λ a. RefinesRequests a (λ n. None) (λ n. None)) }
    ensures numbers { IfOk result (λ a. a.table.limit ≡ cells) }
{
    ActiveObjects::with_limit(alloc, cells)
}

/// The clients, the messages and which of them are tokens, and the servers of each class.
#[derive(Drop)]
pub(crate) struct Services {
    pub(crate) clients: Clients,
    pub(crate) messages: Messages,
    pub(crate) tokens: Tokens,
    pub(crate) listed: Lists,
}

/// No client asked for anything, there is no message, and no server is found.
pub(crate) fn no_services(
    alloc: Global,
    cells: usize,
    messages: usize,
) -> Result<Services, AllocError>
    requires cells { cells ≤ 4096 }
    requires messages { messages ≤ 1024 }
    ensures clients { IfOk result (λ s. s.clients ≡ at_first cells) }
    ensures messages { IfOk result (λ s. s.messages ≡ record { slots = []; limit = messages }) }
    ensures tokens { IfOk result (λ s. s.tokens ≡ none_of messages cells) }
    ensures listed { IfOk result (λ s. s.listed ≡ no_list cells 256) }
{
    let listed = Lists::with_limit(alloc, cells, CLASSES)?;
    let tokens = Tokens::with_limit(alloc, messages, cells)?;
    let messages = Messages::with_limit(alloc, messages)?;
    Ok(Services {
        clients: Clients::with_limit(alloc, cells)?,
        messages,
        tokens,
        listed,
    })
}
