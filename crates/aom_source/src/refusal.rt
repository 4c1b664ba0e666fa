//! Why a source is not translated.
ghost use Rattle.std.specs.Prelude.{◌≡◌, List, ℕ, IfSome};
ghost use Rattle.aom_source_tokens.specs.Places.{IsPlaceIn};
ghost use Rattle.aom_source.specs.Refusals.{IsOfByte, IsOfFault, IsOfSyntax, IsToldIn, place_of};

use aom_source_program::{Fault, FaultKind};
use aom_source_syntax::{SyntaxFault, SyntaxFaultKind};
use aom_source_tokens::{Place, TokenFault, TokenFaultKind, Tokens};
use std::alloc::{AllocError, AllocFailed};

/// Why a source is not translated, and where.
#[derive(Clone, Copy)]
pub enum Refusal<'a> {
    /// A byte that begins no token, or a number that is too great.
    Token(TokenFault),
    /// A token that cannot stand there.
    Syntax(SyntaxFaultKind, Place),
    /// What the tokens say is wrong.
    Fault(Fault<'a>, Place),
    OutOfMemory,
}

impl<'a> Refusal<'a> {
    /// The refusal of a token that cannot stand where it does.
    pub fn of_syntax(tokens: &Tokens<'a>, fault: SyntaxFault) -> Refusal<'a>
        ensures is { IsOfSyntax tokens.now fault result }
        ensures within { IsToldIn tokens.now.bytes result }
    {
        if let SyntaxFaultKind::OutOfMemory = fault.kind {
            return Refusal::OutOfMemory;
        }
        Refusal::Syntax(fault.kind, tokens.get(fault.token as usize).place)
    }

    /// The refusal of a fault, at the place of its token.
    pub fn of_fault(tokens: &Tokens<'a>, fault: Fault<'a>) -> Refusal<'a>
        ensures is { IsOfFault tokens.now fault.entry result }
        ensures within { IsToldIn tokens.now.bytes result }
    {
        if fault.kind == FaultKind::OutOfMemory {
            return Refusal::OutOfMemory;
        }
        Refusal::Fault(fault, tokens.get(fault.token as usize).place)
    }

    /// The refusal of a byte.
    pub fn of_token(fault: TokenFault) -> Refusal<'a>
        ensures is { IsOfByte fault result }
        ensures within { (bytes : List ℕ) → IsPlaceIn bytes fault.place → IsToldIn bytes result }
    {
        if let TokenFaultKind::OutOfMemory = fault.kind {
            return Refusal::OutOfMemory;
        }
        Refusal::Token(fault)
    }

    /// The name of the fault.
    pub fn name(&self) -> &'static str {
        match self {
            Refusal::Token(fault) => match fault.kind {
                TokenFaultKind::BadByte => "bad-byte",
                TokenFaultKind::NumberRange => "number-range",
                TokenFaultKind::TextTooLong => "text-too-long",
                TokenFaultKind::OutOfMemory => "out-of-memory",
            },
            Refusal::Syntax(SyntaxFaultKind::TooDeep, _) => "too-deep",
            Refusal::Syntax(_, _) => "syntax",
            Refusal::Fault(fault, _) => fault.kind.name(),
            Refusal::OutOfMemory => "out-of-memory",
        }
    }

    /// Where it is told, if it is of a place.
    pub fn place(&self) -> Option<Place>
        ensures is { result ≡ place_of self.now }
        ensures within { (bytes : List ℕ) → IsToldIn bytes self.now → IfSome result (λ p. IsPlaceIn bytes p) }
    {
        match self {
            Refusal::Token(fault) => Some(fault.place),
            Refusal::Syntax(_, place) | Refusal::Fault(_, place) => Some(*place),
            Refusal::OutOfMemory => None,
        }
    }
}

impl<'a> From<AllocError> for Refusal<'a> {
    fn from(_error: AllocError) -> Refusal<'a> {
        Refusal::OutOfMemory
    }
}

impl<'a, T: Drop> From<AllocFailed<T>> for Refusal<'a> {
    fn from(_error: AllocFailed<T>) -> Refusal<'a> {
        Refusal::OutOfMemory
    }
}
