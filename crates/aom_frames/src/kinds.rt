//! What each of the tasks is.
ghost use Rattle.std.specs.Prelude.{◌≡◌, ◌<◌, ◌+◌, [], ◌∷◌, IfOk, length, slice_index_or};
ghost use Rattle.aom_frames.specs.declared.task.TaskKind.TheVariants.{Trapped};
ghost use Rattle.aom_frames.specs.Slots.{first, rest};

use crate::TaskKind;
use std::alloc::{AllocError, Global};
use std::marker::Model;

/// The kinds of the tasks, the innermost last. What lies above is of tasks that are over.
#[derive(Drop)]
pub(crate) struct TaskKinds {
    kinds: Vec<TaskKind>,
    count: usize,
}

impl Model for TaskKinds {
    ghost use Rattle.std.specs.Prelude.{List, ◌≡◌, ◌≤◌, length};
    ghost use Rattle.aom_frames.specs.declared.task.TaskKind.{TaskKind};
    ghost use Rattle.aom_frames.specs.declared.task.TaskKind.TheVariants.{Trapped};
    ghost use Rattle.aom_frames.specs.Slots.{down};

    ghost Value = { List TaskKind };

    ghost view = { λ k. down Trapped k.kinds.items k.count };

    ghost invariant = { λ k. (k.count ≤ 2048) × (length k.kinds.items ≡ 2048) };
}

impl TaskKinds {
    pub(crate) fn new(alloc: Global) -> Result<TaskKinds, AllocError>
        ensures { IfOk result (λ k. k ≡ []) }
    {
        Ok(TaskKinds {
            kinds: vec![in alloc; TaskKind::Trapped; 2048]?,
            count: 0,
        })
    }

    pub(crate) fn len(&self) -> usize
        ensures { result ≡ length self.now }
    {
        self.count
    }

    /// The innermost.
    pub(crate) fn last(&self) -> Option<TaskKind>
        ensures { result ≡ first self.now }
    {
        if self.count == 0 {
            return None;
        }
        Some(self.kinds[self.count - 1])
    }

    /// The one that so many lie above.
    pub(crate) fn under(&self, above: usize) -> TaskKind
        requires { above < length self.now }
        ensures { result ≡ slice_index_or self.now above Trapped }
    {
        self.kinds[self.count - 1 - above]
    }

    #[inline]
    pub(crate) fn push(&mut self, kind: TaskKind)
        requires { length self.old < 2048 }
        ensures { self.new ≡ kind ∷ self.old }
    {
        let count = self.count;
        self.kinds[count] = kind;
        self.count = count + 1;
    }

    /// Two at once, the first below the other.
    #[inline]
    pub(crate) fn push_two(&mut self, lower: TaskKind, upper: TaskKind)
        requires { length self.old + 1 < 2048 }
        ensures { self.new ≡ upper ∷ lower ∷ self.old }
    {
        let count = self.count;
        self.kinds[count] = lower;
        self.kinds[count + 1] = upper;
        self.count = count + 2;
    }

    /// The innermost is over.
    pub(crate) fn drop_last(&mut self)
        requires { 0 < length self.old }
        ensures { self.new ≡ rest self.old }
    {
        self.count -= 1;
    }
}
