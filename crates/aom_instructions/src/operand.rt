//! The operands of one instruction, each of its kind.
ghost use Rattle.std.specs.Prelude.{◌≡◌};
ghost use Rattle.aom_instructions.specs.Table.{register, word, field, depth, target, number, rounds, place, class, method, operands_of};

use crate::{
    ClassNumber, FieldIndex, InstrPlace, LoopDepth, MethodNumber, Register, Target, WordIndex,
};

/// A small operand.
#[derive(Clone, Copy)]
pub enum Small {
    Unused,
    Register(Register),
    Word(WordIndex),
    Field(FieldIndex),
    Depth(LoopDepth),
    CallTarget(Target),
}

/// The large operand.
#[derive(Clone, Copy)]
pub enum Large {
    Nothing,
    Number(i32),
    Rounds(u16),
    Place(InstrPlace),
    Class(ClassNumber),
    Method(MethodNumber),
}

/// Three small operands and a large one.
#[derive(Clone, Copy)]
pub struct Operands {
    pub a: Small,
    pub b: Small,
    pub c: Small,
    pub d: Large,
}

impl Operands {
    pub(crate) fn of(a: Small, b: Small, c: Small, d: Large) -> Operands
        ensures { result ≡ operands_of a b c d }
    {
        Operands { a, b, c, d }
    }

    pub(crate) fn of_none() -> Operands
        ensures { result ≡ operands_of Small.Unused Small.Unused Small.Unused Large.Nothing }
    {
        Operands::of_one(Small::Unused)
    }

    pub(crate) fn of_one(a: Small) -> Operands
        ensures { result ≡ operands_of a Small.Unused Small.Unused Large.Nothing }
    {
        Operands::of_two(a, Small::Unused)
    }

    pub(crate) fn of_two(a: Small, b: Small) -> Operands
        ensures { result ≡ operands_of a b Small.Unused Large.Nothing }
    {
        Operands::of(a, b, Small::Unused, Large::Nothing)
    }

    pub(crate) fn of_large(d: Large) -> Operands
        ensures { result ≡ operands_of Small.Unused Small.Unused Small.Unused d }
    {
        Operands::of_one_and_large(Small::Unused, d)
    }

    pub(crate) fn of_one_and_large(a: Small, d: Large) -> Operands
        ensures { result ≡ operands_of a Small.Unused Small.Unused d }
    {
        Operands::of(a, Small::Unused, Small::Unused, d)
    }
}

/// What an operand says. An operand of another kind says number 0.
impl Small {
    pub(crate) fn register(self) -> Register
        ensures { result ≡ register self }
    {
        match self {
            Small::Register(register) => register,
            _ => Register::FIRST,
        }
    }

    pub(crate) fn word(self) -> WordIndex
        ensures { result ≡ word self }
    {
        match self {
            Small::Word(word) => word,
            _ => WordIndex::FIRST,
        }
    }

    pub(crate) fn field(self) -> FieldIndex
        ensures { result ≡ field self }
    {
        match self {
            Small::Field(field) => field,
            _ => FieldIndex::FIRST,
        }
    }

    pub(crate) fn depth(self) -> LoopDepth
        ensures { result ≡ depth self }
    {
        match self {
            Small::Depth(depth) => depth,
            _ => LoopDepth::FIRST,
        }
    }

    pub(crate) fn target(self) -> Target
        ensures { result ≡ target self }
    {
        match self {
            Small::CallTarget(target) => target,
            _ => Target::This,
        }
    }
}

impl Large {
    pub(crate) fn number(self) -> i32
        ensures { result ≡ number self }
    {
        match self {
            Large::Number(number) => number,
            _ => 0,
        }
    }

    pub(crate) fn rounds(self) -> u16
        ensures { result ≡ rounds self }
    {
        match self {
            Large::Rounds(rounds) => rounds,
            _ => 0,
        }
    }

    pub(crate) fn place(self) -> InstrPlace
        ensures { result ≡ place self }
    {
        match self {
            Large::Place(place) => place,
            _ => InstrPlace::FIRST,
        }
    }

    pub(crate) fn class(self) -> ClassNumber
        ensures { result ≡ class self }
    {
        match self {
            Large::Class(class) => class,
            _ => ClassNumber::FIRST,
        }
    }

    pub(crate) fn method(self) -> MethodNumber
        ensures { result ≡ method self }
    {
        match self {
            Large::Method(method) => method,
            _ => MethodNumber::FIRST,
        }
    }
}
