//! Places at which a method may leave.
use crate::generator::{Generator, Local};
use crate::summary::Noise;
use aom_source_program::{Fault, FaultKind, Role};
use aom_source_states::{MessageState, Owner, OwnerId, Status};

impl<'s, 't, 'a> Generator<'s, 't, 'a> {
    /// Here the method may leave: each owner but one has to be guarded, and no message may be held.
    pub fn leave_point(
        &mut self,
        token: u32,
        what: &'a [u8],
        except: Option<OwnerId>,
    ) -> Result<(), Fault<'a>> {
        self.may_leave(token, what)?;
        self.summary.leaves = true;
        if self.summary.noise.is_none() {
            self.summary.noise = Some(Noise { token, what });
        }
        if self.message_state() == MessageState::Taken {
            return Err(Fault::at(FaultKind::MessageAtLeave, token).about(what));
        }
        for at in 0..self.owner_count() {
            if let Some(owner) = self.owner_at(at) {
                let is_held = owner.status.is_live() && !owner.is_guarded;
                if is_held && except != Some(owner.id) {
                    self.want_guard(owner, token, what)?;
                }
            }
        }
        Ok(())
    }

    fn may_leave(&self, token: u32, what: &'a [u8]) -> Result<(), Fault<'a>> {
        let says_noleave = self.program.method(self.id)?.says_noleave;
        if self.role.is_quiet() || self.role == Role::Error || says_noleave {
            return Err(
                Fault::at(FaultKind::MayNotLeave, token)
                    .about(what)
                    .beside(self.method_name()),
            );
        }
        Ok(())
    }

    fn want_guard(&mut self, owner: Owner, token: u32, what: &'a [u8]) -> Result<(), Fault<'a>> {
        let name = self.owner_name(owner.id);
        let kind = if owner.is_message {
            FaultKind::MessageAtLeave
        } else if owner.status == Status::Maybe {
            FaultKind::MaybeAtLeave
        } else if self.notes.is_guarded(owner.id, owner.site) {
            FaultKind::TwoOwnersAtLeave
        } else {
            self.notes.guard(owner.id, owner.site)?;
            return Ok(());
        };
        Err(Fault::at(kind, token).about(name).beside(what))
    }

    /// Asks that a local owns surely.
    pub fn owns_surely(&self, local: Local<'a>, token: u32) -> Result<(), Fault<'a>> {
        match self.owner(local.id).status {
            Status::Owns => Ok(()),
            Status::Gone => Err(Fault::at(FaultKind::Moved, token).about(local.name)),
            Status::Maybe | Status::Null => {
                Err(Fault::at(FaultKind::MayBeNull, token).about(local.name))
            }
        }
    }

    /// Asks that a local has not been moved.
    pub fn is_there(&self, local: Local<'a>, token: u32) -> Result<(), Fault<'a>> {
        if self.owner(local.id).status == Status::Gone {
            return Err(Fault::at(FaultKind::Moved, token).about(local.name));
        }
        Ok(())
    }
}
