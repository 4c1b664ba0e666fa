//! The operands of instructions: numbers with a range of their own, which contracts see as numbers.
ghost use Rattle.std.specs.Prelude.{◌≡◌, ◌<◌, IfSome, IsSome, ◌↔◌};

use std::marker::Model;

/// The number of a register, below 16.
#[derive(Clone, Copy)]
pub struct Register {
    number: u8,
}

impl Model for Register {
    ghost use Rattle.std.specs.Prelude.{ℕ, ◌<◌};

    ghost Value = { ℕ };

    ghost view = { λ n. n.number };

    ghost invariant = { λ n. n.number < 16 };

    ghost inverse = { λ n. record { number = n } };
}

impl Register {
    pub const FIRST: Register = Register { number: 0 };

    /// The operand of that number, if it is in range.
    pub fn new(number: u8) -> Option<Register>
        ensures variant { IsSome result ↔ (number < 16) }
        ensures value { IfSome result (λ n. n ≡ number) }
    {
        if number < 16 {
            Some(Register { number })
        } else {
            None
        }
    }

    pub fn number(self) -> u8
        ensures value { result ≡ self }
        ensures in_range { result < 16 }
    {
        self.number
    }
}

/// The number of a word field, below 8.
#[derive(Clone, Copy)]
pub struct WordIndex {
    number: u8,
}

impl Model for WordIndex {
    ghost use Rattle.std.specs.Prelude.{ℕ, ◌<◌};

    ghost Value = { ℕ };

    ghost view = { λ n. n.number };

    ghost invariant = { λ n. n.number < 8 };

    ghost inverse = { λ n. record { number = n } };
}

impl WordIndex {
    pub const FIRST: WordIndex = WordIndex { number: 0 };

    /// The operand of that number, if it is in range.
    pub fn new(number: u8) -> Option<WordIndex>
        ensures variant { IsSome result ↔ (number < 8) }
        ensures value { IfSome result (λ n. n ≡ number) }
    {
        if number < 8 {
            Some(WordIndex { number })
        } else {
            None
        }
    }

    pub fn number(self) -> u8
        ensures value { result ≡ self }
        ensures in_range { result < 8 }
    {
        self.number
    }
}

/// The number of an owning field, below 8.
#[derive(Clone, Copy)]
pub struct FieldIndex {
    number: u8,
}

impl Model for FieldIndex {
    ghost use Rattle.std.specs.Prelude.{ℕ, ◌<◌};

    ghost Value = { ℕ };

    ghost view = { λ n. n.number };

    ghost invariant = { λ n. n.number < 8 };

    ghost inverse = { λ n. record { number = n } };
}

impl FieldIndex {
    pub const FIRST: FieldIndex = FieldIndex { number: 0 };

    /// The operand of that number, if it is in range.
    pub fn new(number: u8) -> Option<FieldIndex>
        ensures variant { IsSome result ↔ (number < 8) }
        ensures value { IfSome result (λ n. n ≡ number) }
    {
        if number < 8 {
            Some(FieldIndex { number })
        } else {
            None
        }
    }

    pub fn number(self) -> u8
        ensures value { result ≡ self }
        ensures in_range { result < 8 }
    {
        self.number
    }
}

/// How many loops stand around a loop, below 4.
#[derive(Clone, Copy)]
pub struct LoopDepth {
    number: u8,
}

impl Model for LoopDepth {
    ghost use Rattle.std.specs.Prelude.{ℕ, ◌<◌};

    ghost Value = { ℕ };

    ghost view = { λ n. n.number };

    ghost invariant = { λ n. n.number < 4 };

    ghost inverse = { λ n. record { number = n } };
}

impl LoopDepth {
    pub const FIRST: LoopDepth = LoopDepth { number: 0 };

    /// The operand of that number, if it is in range.
    pub fn new(number: u8) -> Option<LoopDepth>
        ensures variant { IsSome result ↔ (number < 4) }
        ensures value { IfSome result (λ n. n ≡ number) }
    {
        if number < 4 {
            Some(LoopDepth { number })
        } else {
            None
        }
    }

    pub fn number(self) -> u8
        ensures value { result ≡ self }
        ensures in_range { result < 4 }
    {
        self.number
    }
}

/// A cleanup entry, counted from the top of the stack, below 16.
#[derive(Clone, Copy)]
pub struct EntryDepth {
    number: u8,
}

impl Model for EntryDepth {
    ghost use Rattle.std.specs.Prelude.{ℕ, ◌<◌};

    ghost Value = { ℕ };

    ghost view = { λ n. n.number };

    ghost invariant = { λ n. n.number < 16 };

    ghost inverse = { λ n. record { number = n } };
}

impl EntryDepth {
    /// The operand of that number, if it is in range.
    pub fn new(number: u8) -> Option<EntryDepth>
        ensures variant { IsSome result ↔ (number < 16) }
        ensures value { IfSome result (λ n. n ≡ number) }
    {
        if number < 16 {
            Some(EntryDepth { number })
        } else {
            None
        }
    }

    pub fn number(self) -> u8
        ensures value { result ≡ self }
        ensures in_range { result < 16 }
    {
        self.number
    }
}

/// The number of a native, below 16.
#[derive(Clone, Copy)]
pub struct NativeNumber {
    number: u8,
}

impl Model for NativeNumber {
    ghost use Rattle.std.specs.Prelude.{ℕ, ◌<◌};

    ghost Value = { ℕ };

    ghost view = { λ n. n.number };

    ghost invariant = { λ n. n.number < 16 };

    ghost inverse = { λ n. record { number = n } };
}

impl NativeNumber {
    /// The operand of that number, if it is in range.
    pub fn new(number: u8) -> Option<NativeNumber>
        ensures variant { IsSome result ↔ (number < 16) }
        ensures value { IfSome result (λ n. n ≡ number) }
    {
        if number < 16 {
            Some(NativeNumber { number })
        } else {
            None
        }
    }

    pub fn number(self) -> u8
        ensures value { result ≡ self }
        ensures in_range { result < 16 }
    {
        self.number
    }
}

/// The number of a class, below 256.
#[derive(Clone, Copy, PartialEq, Eq, Debug)]
pub struct ClassNumber {
    number: u8,
}

impl Model for ClassNumber {
    ghost use Rattle.std.specs.Prelude.{ℕ, ◌<◌};

    ghost Value = { ℕ };

    ghost view = { λ n. n.number };

    ghost invariant = { λ n. n.number < 256 };

    ghost inverse = { λ n. record { number = n } };
}

impl ClassNumber {
    pub const FIRST: ClassNumber = ClassNumber { number: 0 };

    /// The operand of that number, if it is in range.
    pub fn new(number: u16) -> Option<ClassNumber>
        ensures variant { IsSome result ↔ (number < 256) }
        ensures value { IfSome result (λ n. n ≡ number) }
    {
        if number < 256 {
            let number = number as u8;
            Some(ClassNumber { number })
        } else {
            None
        }
    }

    pub fn number(self) -> u16
        ensures value { result ≡ self }
        ensures in_range { result < 256 }
    {
        u16::from(self.number)
    }
}

/// The number of a method, below 1,024.
#[derive(Clone, Copy, PartialEq, Eq, Debug)]
pub struct MethodNumber {
    number: u16,
}

impl Model for MethodNumber {
    ghost use Rattle.std.specs.Prelude.{ℕ, ◌<◌};

    ghost Value = { ℕ };

    ghost view = { λ n. n.number };

    ghost invariant = { λ n. n.number < 1024 };

    ghost inverse = { λ n. record { number = n } };
}

impl MethodNumber {
    pub const FIRST: MethodNumber = MethodNumber { number: 0 };

    /// The operand of that number, if it is in range.
    pub fn new(number: u16) -> Option<MethodNumber>
        ensures variant { IsSome result ↔ (number < 1024) }
        ensures value { IfSome result (λ n. n ≡ number) }
    {
        if number < 1024 {
            Some(MethodNumber { number })
        } else {
            None
        }
    }

    pub fn number(self) -> u16
        ensures value { result ≡ self }
        ensures in_range { result < 1024 }
    {
        self.number
    }
}

/// The place of an instruction in its method, below 1,024.
#[derive(Clone, Copy)]
pub struct InstrPlace {
    number: u16,
}

impl Model for InstrPlace {
    ghost use Rattle.std.specs.Prelude.{ℕ, ◌<◌};

    ghost Value = { ℕ };

    ghost view = { λ n. n.number };

    ghost invariant = { λ n. n.number < 1024 };

    ghost inverse = { λ n. record { number = n } };
}

impl InstrPlace {
    pub const FIRST: InstrPlace = InstrPlace { number: 0 };

    /// The operand of that number, if it is in range.
    pub fn new(number: u16) -> Option<InstrPlace>
        ensures variant { IsSome result ↔ (number < 1024) }
        ensures value { IfSome result (λ n. n ≡ number) }
    {
        if number < 1024 {
            Some(InstrPlace { number })
        } else {
            None
        }
    }

    pub fn number(self) -> u16
        ensures value { result ≡ self }
        ensures in_range { result < 1024 }
    {
        self.number
    }
}
