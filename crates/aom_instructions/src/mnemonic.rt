//! The table of instructions: a mnemonic and a row for each, the two ways between an instruction and its parts, and what sorts there are of them.
ghost use Rattle.std.specs.Prelude.{◌≡◌, ◌==◌};
ghost use Rattle.std.specs.List.{find};
ghost use Rattle.std.specs.Str.{bytes_eq};
ghost use Rattle.aom_instructions.specs.Table.{mnemonics, row, line, kinds, call_kinds, mnemonic, operands, make, transfer_of, action_of};
ghost use Rattle.aom_instructions.specs.declared.kinds.SmallKind.TheVariants.{Register, Unused};
ghost use Rattle.aom_instructions.specs.declared.kinds.LargeKind.TheVariants.{Nothing};
ghost use Rattle.aom_instructions.specs.Mnemonics.{is_in, mnemonic_of, mnemonic_text, with_opcode};

use crate::LargeKind::{Class, Method, Nothing, Number, Place, Rounds};
use crate::SmallKind::{CallTarget, Depth, Field, Register, TrapResult, Unused, Word};
use crate::{
    Action, CallMode, Condition, Instr, Kinds, Large, LargeKind, OperandOrder, Operands, Small,
    SmallKind, Transfer, Version,
};
use std::marker::Model;

/// What an instruction is called, one for each instruction.
#[derive(Clone, Copy)]
pub enum Mnemonic {
    Const,
    Copy,
    Move,
    Add,
    Sub,
    Mul,
    And,
    Or,
    Xor,
    Jump,
    JumpEqual,
    JumpLess,
    JumpNull,
    JumpEmpty,
    JumpActive,
    JumpAdded,
    Loop,
    Next,
    Print,
    Load,
    Store,
    Take,
    Put,
    New,
    NewOrLeave,
    Delete,
    Push,
    PushOperation,
    Pop,
    PopOperation,
    PopDelete,
    Call,
    Trap,
    Return,
    Leave,
    LeaveIf,
    Enlist,
    Issue,
    SetActive,
    Cancel,
    Abort,
    Status,
    Connect,
    Ask,
    Close,
    TakeMessage,
    Reply,
    Stop,
    Hand,
}

/// All of them.
const MNEMONICS: [Mnemonic; 49] = [
    Mnemonic::Const,
    Mnemonic::Copy,
    Mnemonic::Move,
    Mnemonic::Add,
    Mnemonic::Sub,
    Mnemonic::Mul,
    Mnemonic::And,
    Mnemonic::Or,
    Mnemonic::Xor,
    Mnemonic::Jump,
    Mnemonic::JumpEqual,
    Mnemonic::JumpLess,
    Mnemonic::JumpNull,
    Mnemonic::JumpEmpty,
    Mnemonic::JumpActive,
    Mnemonic::JumpAdded,
    Mnemonic::Loop,
    Mnemonic::Next,
    Mnemonic::Print,
    Mnemonic::Load,
    Mnemonic::Store,
    Mnemonic::Take,
    Mnemonic::Put,
    Mnemonic::New,
    Mnemonic::NewOrLeave,
    Mnemonic::Delete,
    Mnemonic::Push,
    Mnemonic::PushOperation,
    Mnemonic::Pop,
    Mnemonic::PopOperation,
    Mnemonic::PopDelete,
    Mnemonic::Call,
    Mnemonic::Trap,
    Mnemonic::Return,
    Mnemonic::Leave,
    Mnemonic::LeaveIf,
    Mnemonic::Enlist,
    Mnemonic::Issue,
    Mnemonic::SetActive,
    Mnemonic::Cancel,
    Mnemonic::Abort,
    Mnemonic::Status,
    Mnemonic::Connect,
    Mnemonic::Ask,
    Mnemonic::Close,
    Mnemonic::TakeMessage,
    Mnemonic::Reply,
    Mnemonic::Stop,
    Mnemonic::Hand,
];

/// An instruction's opcode, what it is called in texts, what its operands are, and the version from which on it is there.
#[derive(Drop)]
pub struct Row {
    opcode: u8,
    text: &'static [u8],
    kinds: Kinds,
    since: Version,
}

impl Model for Row {
    ghost use Rattle.aom_instructions.specs.Table.{InstrRow};

    ghost Value = { InstrRow };

    ghost view = { λ r. record { opcode = r.opcode; text = r.text.now; kinds = r.kinds; since = r.since } };
}

impl Row {
    fn of(
        opcode: u8,
        text: &'static [u8],
        a: SmallKind,
        b: SmallKind,
        c: SmallKind,
        d: LargeKind,
    ) -> Row
        ensures { result ≡ line opcode text.now (kinds a b c d) }
    {
        let order = OperandOrder::LargeLast;
        Row {
            opcode,
            text,
            kinds: Kinds { a, b, c, d, order },
            since: Version::One,
        }
    }

    /// No operands.
    fn of_none(opcode: u8, text: &'static [u8]) -> Row
        ensures { result ≡ line opcode text.now (kinds Unused Unused Unused Nothing) }
    {
        Row::of(opcode, text, Unused, Unused, Unused, Nothing)
    }

    /// One small operand.
    fn of_one(opcode: u8, text: &'static [u8], a: SmallKind) -> Row
        ensures { result ≡ line opcode text.now (kinds a Unused Unused Nothing) }
    {
        Row::of(opcode, text, a, Unused, Unused, Nothing)
    }

    /// Two small operands.
    fn of_two(opcode: u8, text: &'static [u8], a: SmallKind, b: SmallKind) -> Row
        ensures { result ≡ line opcode text.now (kinds a b Unused Nothing) }
    {
        Row::of(opcode, text, a, b, Unused, Nothing)
    }

    /// Three registers.
    fn of_registers(opcode: u8, text: &'static [u8]) -> Row
        ensures { result ≡ line opcode text.now (kinds Register Register Register Nothing) }
    {
        Row::of(opcode, text, Register, Register, Register, Nothing)
    }

    /// A large operand.
    fn of_large(opcode: u8, text: &'static [u8], d: LargeKind) -> Row
        ensures { result ≡ line opcode text.now (kinds Unused Unused Unused d) }
    {
        Row::of(opcode, text, Unused, Unused, Unused, d)
    }

    /// A small operand and a large one.
    fn of_one_and_large(opcode: u8, text: &'static [u8], a: SmallKind, d: LargeKind) -> Row
        ensures { result ≡ line opcode text.now (kinds a Unused Unused d) }
    {
        Row::of(opcode, text, a, Unused, Unused, d)
    }

    /// What a call is made on, a method, the first argument and what becomes of the result.
    fn of_call(opcode: u8, text: &'static [u8], c: SmallKind) -> Row
        ensures { result ≡ line opcode text.now (call_kinds c) }
    {
        let order = OperandOrder::LargeSecond;
        Row {
            opcode,
            text,
            kinds: Kinds {
                a: CallTarget,
                b: Register,
                c,
                d: Method,
                order,
            },
            since: Version::One,
        }
    }

    /// The row of an instruction that is there from that version on.
    fn from_version(self, since: Version) -> Row
        ensures { result ≡ record self { since = since } }
    {
        Row {
            opcode: self.opcode,
            text: self.text,
            kinds: self.kinds,
            since,
        }
    }

    pub fn opcode(&self) -> u8
        ensures { result ≡ self.now.opcode }
    {
        self.opcode
    }

    pub fn text(&self) -> &'static [u8]
        ensures { result.now ≡ self.now.text }
    {
        self.text
    }

    pub fn kinds(&self) -> Kinds
        ensures { result ≡ self.now.kinds }
    {
        self.kinds
    }

    pub fn since(&self) -> Version
        ensures { result ≡ self.now.since }
    {
        self.since
    }
}

impl Mnemonic {
    pub fn text(self) -> &'static [u8]
        ensures { result.now ≡ mnemonic_text self }
    {
        self.row().text()
    }

    /// Whether an image of that version may have the instruction.
    pub fn is_in(self, version: Version) -> bool
        ensures { result ≡ is_in version self }
    {
        version.includes(self.row().since())
    }

    /// The mnemonic that a word is.
    pub fn of(word: &[u8]) -> Option<Mnemonic>
        ensures { result ≡ mnemonic_of word.now }
    {
        for mnemonic in &MNEMONICS {
            if mnemonic.text() == word {
                return Some(*mnemonic);
            }
        }
        None
    }

    /// The mnemonic of an opcode: they stand in the order of their opcodes, which begin at 1.
    pub fn with_opcode(opcode: u8) -> Option<Mnemonic>
        ensures { result ≡ with_opcode opcode }
    {
        let index = (opcode as usize).checked_sub(1)?;
        MNEMONICS.get(index).copied()
    }

    /// The table itself.
    pub fn row(self) -> Row
        ensures { result ≡ row self }
    {
        match self {
            Mnemonic::Const => Row::of_one_and_large(0x01, b"const", Register, Number),
            Mnemonic::Copy => Row::of_two(0x02, b"copy", Register, Register),
            Mnemonic::Move => Row::of_two(0x03, b"move", Register, Register),
            Mnemonic::Add => Row::of_registers(0x04, b"add"),
            Mnemonic::Sub => Row::of_registers(0x05, b"sub"),
            Mnemonic::Mul => Row::of_registers(0x06, b"mul"),
            Mnemonic::And => Row::of_registers(0x07, b"and"),
            Mnemonic::Or => Row::of_registers(0x08, b"or"),
            Mnemonic::Xor => Row::of_registers(0x09, b"xor"),
            Mnemonic::Jump => Row::of_large(0x0a, b"jump", Place),
            Mnemonic::JumpEqual => Row::of(0x0b, b"jeq", Register, Register, Unused, Place),
            Mnemonic::JumpLess => Row::of(0x0c, b"jlt", Register, Register, Unused, Place),
            Mnemonic::JumpNull => Row::of_one_and_large(0x0d, b"jnull", Register, Place),
            Mnemonic::JumpEmpty => Row::of_one_and_large(0x0e, b"jempty", Field, Place),
            Mnemonic::JumpActive => Row::of_large(0x0f, b"jactive", Place),
            Mnemonic::JumpAdded => Row::of_large(0x10, b"jadded", Place),
            Mnemonic::Loop => Row::of_one_and_large(0x11, b"loop", Depth, Rounds),
            Mnemonic::Next => Row::of_one_and_large(0x12, b"next", Depth, Place),
            Mnemonic::Print => Row::of_one(0x13, b"print", Register),
            Mnemonic::Load => Row::of_two(0x14, b"load", Register, Word),
            Mnemonic::Store => Row::of_two(0x15, b"store", Word, Register),
            Mnemonic::Take => Row::of_two(0x16, b"take", Register, Field),
            Mnemonic::Put => Row::of_two(0x17, b"put", Field, Register),
            Mnemonic::New => Row::of_one_and_large(0x18, b"new", Register, Class),
            Mnemonic::NewOrLeave => Row::of_one_and_large(0x19, b"newl", Register, Class),
            Mnemonic::Delete => Row::of_one(0x1a, b"delete", Register),
            Mnemonic::Push => Row::of_one(0x1b, b"push", Register),
            Mnemonic::PushOperation => Row::of_one_and_large(0x1c, b"pushop", Register, Method),
            Mnemonic::Pop => Row::of_one(0x1d, b"pop", Register),
            Mnemonic::PopOperation => Row::of_none(0x1e, b"popop"),
            Mnemonic::PopDelete => Row::of_none(0x1f, b"popdel"),
            Mnemonic::Call => Row::of_call(0x20, b"call", Register),
            Mnemonic::Trap => Row::of_call(0x21, b"trap", TrapResult),
            Mnemonic::Return => Row::of_one(0x22, b"ret", Register),
            Mnemonic::Leave => Row::of_one(0x23, b"leave", Register),
            Mnemonic::LeaveIf => Row::of_one(0x24, b"leaveif", Register),
            Mnemonic::Enlist => Row::of_large(0x25, b"enlist", Number),
            Mnemonic::Issue => Row::of_two(0x26, b"issue", Register, Register),
            Mnemonic::SetActive => Row::of_none(0x27, b"setactive"),
            Mnemonic::Cancel => Row::of_none(0x28, b"cancel"),
            Mnemonic::Abort => Row::of_none(0x29, b"abort"),
            Mnemonic::Status => Row::of_one(0x2a, b"status", Register),
            Mnemonic::Connect => Row::of_one(0x2b, b"connect", Register),
            Mnemonic::Ask => Row::of_registers(0x2c, b"ask"),
            Mnemonic::Close => Row::of_none(0x2d, b"close"),
            Mnemonic::TakeMessage => Row::of_one(0x2e, b"takemsg", Register),
            Mnemonic::Reply => Row::of_two(0x2f, b"reply", Register, Register),
            Mnemonic::Stop => Row::of_none(0x30, b"stop"),
            Mnemonic::Hand => Row::of_one(0x31, b"hand", Register).from_version(Version::Two),
        }
    }
}

impl Instr {
    /// What it is called.
    pub fn mnemonic(&self) -> Mnemonic
        ensures { result ≡ mnemonic self.now }
    {
        match self {
            Instr::Const(..) => Mnemonic::Const,
            Instr::Copy(..) => Mnemonic::Copy,
            Instr::Move(..) => Mnemonic::Move,
            Instr::Add(..) => Mnemonic::Add,
            Instr::Sub(..) => Mnemonic::Sub,
            Instr::Mul(..) => Mnemonic::Mul,
            Instr::And(..) => Mnemonic::And,
            Instr::Or(..) => Mnemonic::Or,
            Instr::Xor(..) => Mnemonic::Xor,
            Instr::Jump(..) => Mnemonic::Jump,
            Instr::JumpEqual(..) => Mnemonic::JumpEqual,
            Instr::JumpLess(..) => Mnemonic::JumpLess,
            Instr::JumpNull(..) => Mnemonic::JumpNull,
            Instr::JumpEmpty(..) => Mnemonic::JumpEmpty,
            Instr::JumpActive(..) => Mnemonic::JumpActive,
            Instr::JumpAdded(..) => Mnemonic::JumpAdded,
            Instr::Loop(..) => Mnemonic::Loop,
            Instr::Next(..) => Mnemonic::Next,
            Instr::Print(..) => Mnemonic::Print,
            Instr::Load(..) => Mnemonic::Load,
            Instr::Store(..) => Mnemonic::Store,
            Instr::Take(..) => Mnemonic::Take,
            Instr::Put(..) => Mnemonic::Put,
            Instr::New(..) => Mnemonic::New,
            Instr::NewOrLeave(..) => Mnemonic::NewOrLeave,
            Instr::Delete(..) => Mnemonic::Delete,
            Instr::Push(..) => Mnemonic::Push,
            Instr::PushOperation(..) => Mnemonic::PushOperation,
            Instr::Pop(..) => Mnemonic::Pop,
            Instr::PopOperation => Mnemonic::PopOperation,
            Instr::PopDelete => Mnemonic::PopDelete,
            Instr::Call(..) => Mnemonic::Call,
            Instr::Trap(..) => Mnemonic::Trap,
            Instr::Return(..) => Mnemonic::Return,
            Instr::Leave(..) => Mnemonic::Leave,
            Instr::LeaveIf(..) => Mnemonic::LeaveIf,
            Instr::Enlist(..) => Mnemonic::Enlist,
            Instr::Issue(..) => Mnemonic::Issue,
            Instr::SetActive => Mnemonic::SetActive,
            Instr::Cancel => Mnemonic::Cancel,
            Instr::Abort => Mnemonic::Abort,
            Instr::Status(..) => Mnemonic::Status,
            Instr::Connect(..) => Mnemonic::Connect,
            Instr::Ask(..) => Mnemonic::Ask,
            Instr::Close => Mnemonic::Close,
            Instr::TakeMessage(..) => Mnemonic::TakeMessage,
            Instr::Reply(..) => Mnemonic::Reply,
            Instr::Stop => Mnemonic::Stop,
            Instr::Hand(..) => Mnemonic::Hand,
        }
    }

    /// What stands behind its mnemonic.
    pub fn operands(&self) -> Operands
        ensures { result ≡ operands self.now }
    {
        match *self {
            Instr::Const(a, d) => Operands::of_one_and_large(Small::Register(a), Large::Number(d)),
            Instr::Copy(a, b) | Instr::Move(a, b) | Instr::Issue(a, b) | Instr::Reply(a, b) =>
                Operands::of_two(Small::Register(a), Small::Register(b)),
            Instr::Add(a, b, c)
            | Instr::Sub(a, b, c)
            | Instr::Mul(a, b, c)
            | Instr::And(a, b, c)
            | Instr::Or(a, b, c)
            | Instr::Xor(a, b, c)
            | Instr::Ask(a, b, c) => Operands::of(
                Small::Register(a),
                Small::Register(b),
                Small::Register(c),
                Large::Nothing,
            ),
            Instr::Jump(d) | Instr::JumpActive(d) | Instr::JumpAdded(d) => Operands::of_large(
                Large::Place(d),
            ),
            Instr::JumpEqual(a, b, d) | Instr::JumpLess(a, b, d) => Operands::of(
                Small::Register(a),
                Small::Register(b),
                Small::Unused,
                Large::Place(d),
            ),
            Instr::JumpNull(a, d) => Operands::of_one_and_large(
                Small::Register(a),
                Large::Place(d),
            ),
            Instr::JumpEmpty(a, d) => Operands::of_one_and_large(Small::Field(a), Large::Place(d)),
            Instr::Loop(a, d) => Operands::of_one_and_large(Small::Depth(a), Large::Rounds(d)),
            Instr::Next(a, d) => Operands::of_one_and_large(Small::Depth(a), Large::Place(d)),
            Instr::Print(a)
            | Instr::Delete(a)
            | Instr::Push(a)
            | Instr::Pop(a)
            | Instr::Return(a)
            | Instr::Leave(a)
            | Instr::LeaveIf(a)
            | Instr::Status(a)
            | Instr::Connect(a)
            | Instr::TakeMessage(a)
            | Instr::Hand(a) => Operands::of_one(Small::Register(a)),
            Instr::Load(a, b) => Operands::of_two(Small::Register(a), Small::Word(b)),
            Instr::Store(a, b) => Operands::of_two(Small::Word(a), Small::Register(b)),
            Instr::Take(a, b) => Operands::of_two(Small::Register(a), Small::Field(b)),
            Instr::Put(a, b) => Operands::of_two(Small::Field(a), Small::Register(b)),
            Instr::New(a, d) | Instr::NewOrLeave(a, d) => Operands::of_one_and_large(
                Small::Register(a),
                Large::Class(d),
            ),
            Instr::PushOperation(a, d) => Operands::of_one_and_large(
                Small::Register(a),
                Large::Method(d),
            ),
            Instr::PopOperation
            | Instr::PopDelete
            | Instr::SetActive
            | Instr::Cancel
            | Instr::Abort
            | Instr::Close
            | Instr::Stop => Operands::of_none(),
            Instr::Call(a, d, b, c) | Instr::Trap(a, d, b, c) => Operands::of(
                Small::CallTarget(a),
                Small::Register(b),
                Small::Register(c),
                Large::Method(d),
            ),
            Instr::Enlist(d) => Operands::of_large(Large::Number(d)),
        }
    }

    /// The instruction of a mnemonic and of operands of the kinds that its row asks.
    pub fn make(mnemonic: Mnemonic, operands: Operands) -> Instr
        ensures { result ≡ make mnemonic operands }
    {
        let first = operands.a.register();
        let second = operands.b.register();
        let third = operands.c.register();
        let place = operands.d.place();
        match mnemonic {
            Mnemonic::Const => Instr::Const(first, operands.d.number()),
            Mnemonic::Copy => Instr::Copy(first, second),
            Mnemonic::Move => Instr::Move(first, second),
            Mnemonic::Add => Instr::Add(first, second, third),
            Mnemonic::Sub => Instr::Sub(first, second, third),
            Mnemonic::Mul => Instr::Mul(first, second, third),
            Mnemonic::And => Instr::And(first, second, third),
            Mnemonic::Or => Instr::Or(first, second, third),
            Mnemonic::Xor => Instr::Xor(first, second, third),
            Mnemonic::Jump => Instr::Jump(place),
            Mnemonic::JumpEqual => Instr::JumpEqual(first, second, place),
            Mnemonic::JumpLess => Instr::JumpLess(first, second, place),
            Mnemonic::JumpNull => Instr::JumpNull(first, place),
            Mnemonic::JumpEmpty => Instr::JumpEmpty(operands.a.field(), place),
            Mnemonic::JumpActive => Instr::JumpActive(place),
            Mnemonic::JumpAdded => Instr::JumpAdded(place),
            Mnemonic::Loop => Instr::Loop(operands.a.depth(), operands.d.rounds()),
            Mnemonic::Next => Instr::Next(operands.a.depth(), place),
            Mnemonic::Print => Instr::Print(first),
            Mnemonic::Load => Instr::Load(first, operands.b.word()),
            Mnemonic::Store => Instr::Store(operands.a.word(), second),
            Mnemonic::Take => Instr::Take(first, operands.b.field()),
            Mnemonic::Put => Instr::Put(operands.a.field(), second),
            Mnemonic::New => Instr::New(first, operands.d.class()),
            Mnemonic::NewOrLeave => Instr::NewOrLeave(first, operands.d.class()),
            Mnemonic::Delete => Instr::Delete(first),
            Mnemonic::Push => Instr::Push(first),
            Mnemonic::PushOperation => Instr::PushOperation(first, operands.d.method()),
            Mnemonic::Pop => Instr::Pop(first),
            Mnemonic::PopOperation => Instr::PopOperation,
            Mnemonic::PopDelete => Instr::PopDelete,
            Mnemonic::Call => Instr::Call(operands.a.target(), operands.d.method(), second, third),
            Mnemonic::Trap => Instr::Trap(operands.a.target(), operands.d.method(), second, third),
            Mnemonic::Return => Instr::Return(first),
            Mnemonic::Leave => Instr::Leave(first),
            Mnemonic::LeaveIf => Instr::LeaveIf(first),
            Mnemonic::Enlist => Instr::Enlist(operands.d.number()),
            Mnemonic::Issue => Instr::Issue(first, second),
            Mnemonic::SetActive => Instr::SetActive,
            Mnemonic::Cancel => Instr::Cancel,
            Mnemonic::Abort => Instr::Abort,
            Mnemonic::Status => Instr::Status(first),
            Mnemonic::Connect => Instr::Connect(first),
            Mnemonic::Ask => Instr::Ask(first, second, third),
            Mnemonic::Close => Instr::Close,
            Mnemonic::TakeMessage => Instr::TakeMessage(first),
            Mnemonic::Reply => Instr::Reply(first, second),
            Mnemonic::Stop => Instr::Stop,
            Mnemonic::Hand => Instr::Hand(first),
        }
    }

    /// Where its method goes on from it.
    #[inline(always)]
    pub fn transfer(&self) -> Transfer
        ensures { result ≡ transfer_of self.now }
    {
        match *self {
            Instr::Jump(to) => Transfer::Jump(to),
            Instr::JumpEqual(_, _, to) | Instr::JumpLess(_, _, to) => {
                Transfer::Branch(Condition::OnWords, to)
            }
            Instr::JumpNull(register, to) => Transfer::Branch(Condition::IsNull(register), to),
            Instr::JumpEmpty(field, to) => Transfer::Branch(Condition::IsEmpty(field), to),
            Instr::JumpActive(to) => Transfer::Branch(Condition::IsActive, to),
            Instr::JumpAdded(to) => Transfer::Branch(Condition::IsAdded, to),
            Instr::Loop(depth, rounds) => Transfer::Begin(depth, rounds),
            Instr::Next(depth, to) => Transfer::Repeat(depth, to),
            Instr::Return(register) => Transfer::Return(register),
            Instr::Leave(register) => Transfer::Leave(register),
            _ => Transfer::Onward,
        }
    }

    /// What it does with methods and objects.
    #[inline(always)]
    pub fn action(&self) -> Action
        ensures { result ≡ action_of self.now }
    {
        match *self {
            Instr::New(_, class) | Instr::NewOrLeave(_, class) => Action::Make(class),
            Instr::Delete(register) => Action::Destroy(register),
            Instr::Push(register) => Action::Push(register),
            Instr::PushOperation(word, method) => Action::PushOperation(word, method),
            Instr::Call(target, method, first, result) => {
                Action::Call(CallMode::Plain, target, method, first, result)
            }
            Instr::Trap(target, method, first, result) => {
                Action::Call(CallMode::Trapped, target, method, first, result)
            }
            Instr::Cancel => Action::Cancel,
            _ => Action::Nothing,
        }
    }
}
