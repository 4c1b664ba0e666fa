//! Tokens by the place of their message, and living tokens by the number of a cell.
ghost use Rattle.std.specs.Prelude.{◌≡◌, ◌<◌, Some, None, IfOk, IfSome, IsNone, length};
ghost use Rattle.aom_cells.specs.Tokens.{Sets, class_at, live_at, none_of, redeemed, token_at};

use crate::{CellId, MessageId};
use std::alloc::{AllocError, Global};
use std::marker::Model;

/// The object that handed a token out, and its class.
#[derive(Clone, Copy)]
pub struct Token {
    class: u8,
    object: CellId,
}

/// Which messages are tokens, and which token each object waits for.
#[derive(Drop)]
pub struct Tokens {
    /// By the place of a message.
    places: Vec<Option<Token>>,
    /// By the number of a cell, the place of the token that it waits for.
    living: Vec<Option<MessageId>>,
}

impl Model for Tokens {
    ghost use Rattle.aom_cells.specs.Tokens.{Kept};

    ghost Value = { Kept };

    ghost view = { λ t. record { places = t.places.items; living = t.living.items } };
}

impl Tokens {
    /// No token, with a place for each of so many messages and of so many cells, which is all the memory that is ever taken.
    pub fn with_limit(alloc: Global, messages: usize, cells: usize) -> Result<Tokens, AllocError>
        ensures { IfOk result (λ t. t ≡ none_of messages cells) }
    {
        let places = vec![in alloc; None; messages]?;
        let living = vec![in alloc; None; cells]?;
        Ok(Tokens { places, living })
    }

    /// The token at a place, if there is one. A place that is not there has none.
    fn token(&self, place: MessageId) -> Option<Token>
        ensures { result ≡ token_at self.now place }
    {
        self.places
            .get(usize::from(place.place()))
            .copied()
            .unwrap_or(None)
    }

    /// The place of the token that an object waits for, if it waits for one.
    fn living(&self, id: CellId) -> Option<MessageId>
        ensures { result ≡ live_at self.now id }
    {
        self.living
            .get(id.number() as usize)
            .copied()
            .unwrap_or(None)
    }

    /// The class of the object that handed out the token at a place, or none where no token is there.
    pub fn class(&self, place: MessageId) -> Option<u8>
        ensures { result ≡ class_at self.now place }
    {
        self.token(place).map(|token| token.class)
    }

    /// The message at that place is a token of the object, which waits for it from then on.
    pub fn hand(&mut self, place: MessageId, id: CellId, class: u8)
        requires place { place < length self.old.places }
        requires object { id < length self.old.living }
        ensures handed { Sets self.old.places self.new.places place (Some (record { class = class; object = id })) }
        ensures living { Sets self.old.living self.new.living id (Some place) }
    {
        self.places[usize::from(place.place())] = Some(Token { class, object: id });
        self.living[id.number() as usize] = Some(place);
    }

    /// The token at that place goes. Its object, where that waits for it, which it does no more.
    pub fn redeem(&mut self, place: MessageId) -> Option<CellId>
        ensures object { result ≡ redeemed self.old place }
        ensures freed { Sets self.old.places self.new.places place None }
        ensures living { IfSome result (λ id. Sets self.old.living self.new.living id None) }
        ensures void { IsNone result → self.new.living ≡ self.old.living }
    {
        let token = self.token(place);
        self.free(place);
        let object = token?.object;
        if self.living(object) != Some(place) {
            return None;
        }
        self.forget(object);
        Some(object)
    }

    /// No token is at that place.
    fn free(&mut self, place: MessageId)
        ensures freed { Sets self.old.places self.new.places place None }
        ensures living { self.new.living ≡ self.old.living }
    {
        let place = usize::from(place.place());
        if place < self.places.len() {
            self.places[place] = None;
        }
    }

    /// The object waits for no token from then on: where it waited for one, that is void.
    pub fn forget(&mut self, id: CellId)
        ensures void { Sets self.old.living self.new.living id None }
        ensures places { self.new.places ≡ self.old.places }
    {
        let number = id.number() as usize;
        if number < self.living.len() {
            self.living[number] = None;
        }
    }
}
