//! Labels: the ways that lead to them, and what is known where they come together.
use crate::generator::{Generator, one};
use aom_source_code::{LabelId, Note, Operand, Operation, Reason};
use aom_source_program::{Fault, FaultKind};
use aom_source_states::{Edge, JoinFault, State, Turn, Way, join};

impl<'s, 't, 'a> Generator<'s, 't, 'a> {
    /// A way leads to a label, with what is known on it.
    pub fn lead(&mut self, label: LabelId, state: State, edge: Option<Edge>) {
        let is_done = match self.ways.get_mut(label.0) {
            Some(ways) => ways.push(Way { edge, state }).is_ok(),
            None => false,
        };
        self.want_memory(is_done);
    }

    /// The way that comes here leads to a label, and none goes on.
    pub fn jump(&mut self, label: LabelId, token: u32, edge: Option<Edge>) {
        if let Some(state) = self.state.take() {
            self.emit(Operation::Jump, one(Operand::Label(label)), token);
            self.lead(label, state, edge);
        }
    }

    /// Puts a label here: the ways to it and the one that comes here are joined.
    pub fn place(&mut self, label: LabelId, edge: Option<Edge>) -> Result<(), Fault<'a>> {
        self.place_among(label, edge, None)
    }

    /// The same, where the ways that end nothing of their own end what is told of the others.
    pub fn place_among(
        &mut self,
        label: LabelId,
        edge: Option<Edge>,
        others: Option<Edge>,
    ) -> Result<(), Fault<'a>> {
        if let Some(state) = self.state.take() {
            self.lead(label, state, edge);
        }
        self.code.place(label);
        let Some(ways) = self.ways.get(label.0) else {
            return Err(Fault::internal());
        };
        match join(self.alloc, ways, others, &mut self.notes, self.item) {
            Ok(state) => {
                self.state = state;
                Ok(())
            }
            Err(fault) => Err(self.join_fault(fault)),
        }
    }

    fn join_fault(&self, fault: JoinFault) -> Fault<'a> {
        match fault {
            JoinFault::MessageOnOneWay(id) => {
                Fault::at(FaultKind::MessageOnOneWay, self.token).about(self.owner_name(id))
            }
            JoinFault::TakenOnOneWay => Fault::at(FaultKind::MessageOnOneWay, self.token),
            JoinFault::GuardedOnOneWay(id) => {
                Fault::at(FaultKind::GuardOrder, self.token).about(self.owner_name(id))
            }
            JoinFault::OtherEntries => Fault::at(FaultKind::GuardOrder, self.token),
            JoinFault::OutOfMemory => Fault::at(FaultKind::OutOfMemory, self.token),
        }
    }

    /// Whether a way leads to a label.
    pub fn is_led_to(&self, label: LabelId) -> bool {
        match self.ways.get(label.0) {
            Some(ways) => !ways.is_empty(),
            None => false,
        }
    }

    /// What is noted for the end of a way: what another way has moved is deleted, what it has not guarded comes from the cleanup stack.
    pub fn end_way(&mut self, edge: Edge, token: u32) -> Result<(), Fault<'a>> {
        if !self.is_reached() {
            return Ok(());
        }
        for id in &self.notes.deleted(edge)? {
            if self.is_known_here(*id) {
                if let Some(local) = self.known(*id) {
                    self.delete(local, token, Note::added(Reason::Deletes, local.name))?;
                }
            }
        }
        for id in &self.notes.unguarded(edge)? {
            if self.is_known_here(*id) {
                self.unguard(*id, token)?;
            }
        }
        Ok(())
    }

    fn is_known_here(&self, id: aom_source_states::OwnerId) -> bool {
        match &self.state {
            Some(state) => state.owner(id).is_some(),
            None => false,
        }
    }

    /// The end of a way of the statement at an item.
    pub fn edge(&self, item: usize, turn: Turn) -> Edge {
        Edge { item, turn }
    }
}
