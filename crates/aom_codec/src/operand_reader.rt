//! Instructions, as they are read: an opcode, and operands of the kinds that its row asks.
ghost use Rattle.std.specs.Prelude.{◌≡◌, IfOk};
ghost use Rattle.aom_codec.specs.Instructions.{Bounded, all_operands, instruction, large_from, large_operand, opcode, small_from, small_operand, target_from};
ghost use Rattle.aom_codec.specs.Reads.{Reads};

use crate::LoadFault;
use crate::reader::ByteReader;
use aom_image::{
    ClassNumber, EntryDepth, FieldIndex, Instr, InstrPlace, Kinds, Large, LargeKind, Limits,
    LoopDepth, MethodNumber, Mnemonic, Operands, Register, Small, SmallKind, Target, Version,
    WordIndex,
};

/// What a call is made on, by the halves of a byte.
fn target_of(high: u8, low: u8) -> Result<Small, LoadFault>
    ensures { result ≡ target_from high low }
{
    let target = match high {
        0 if low == 0 => Some(Target::This),
        1 => Register::new(low).map(Target::Register),
        2 => FieldIndex::new(low).map(Target::Field),
        3 => EntryDepth::new(low).map(Target::Entry),
        _ => None,
    };
    match target {
        Some(target) => Ok(Small::CallTarget(target)),
        None => Err(LoadFault::BadOperand),
    }
}

/// What a byte says where an operand of that kind stands.
fn small_of(kind: SmallKind, byte: u8) -> Result<Small, LoadFault>
    ensures { result ≡ small_from kind byte }
{
    let operand = match kind {
        SmallKind::Unused if byte == 0 => Some(Small::Unused),
        SmallKind::Unused => return Err(LoadFault::NotZero),
        SmallKind::Register => Register::new(byte).map(Small::Register),
        SmallKind::TrapResult if byte == 15 => None,
        SmallKind::TrapResult => Register::new(byte).map(Small::Register),
        SmallKind::Word => WordIndex::new(byte).map(Small::Word),
        SmallKind::Field => FieldIndex::new(byte).map(Small::Field),
        SmallKind::Depth => LoopDepth::new(byte).map(Small::Depth),
        SmallKind::CallTarget => return target_of(byte / 16, byte % 16),
    };
    operand.ok_or(LoadFault::BadOperand)
}

/// What four bytes say where an operand of that kind stands.
fn large_of(kind: LargeKind, number: u32, limits: Limits) -> Result<Large, LoadFault>
    requires { Bounded limits }
    ensures { result ≡ large_from limits kind number }
{
    let operand = match kind {
        LargeKind::Nothing if number == 0 => Some(Large::Nothing),
        LargeKind::Nothing => return Err(LoadFault::NotZero),
        LargeKind::Number => Some(Large::Number(number.cast_signed())),
        LargeKind::Rounds if 0 < number && number < 65536 => Some(Large::Rounds(number as u16)),
        LargeKind::Rounds => return Err(LoadFault::BadOperand),
        LargeKind::Place if (number as usize) < limits.places => {
            InstrPlace::new(number as u16).map(Large::Place)
        }
        LargeKind::Class if (number as usize) < limits.classes => {
            ClassNumber::new(number as u16).map(Large::Class)
        }
        LargeKind::Method if (number as usize) < limits.methods => {
            MethodNumber::new(number as u16).map(Large::Method)
        }
        LargeKind::Place | LargeKind::Class | LargeKind::Method => None,
    };
    operand.ok_or(LoadFault::BadIndex)
}

impl<'a> ByteReader<'a> {
    fn small_operand(&mut self, kind: SmallKind) -> Result<Small, LoadFault>
        ensures { Reads (λ x. (x, self.new)) result ((small_operand kind).read self.old) }
    {
        small_of(kind, self.byte()?)
    }

    fn large_operand(&mut self, kind: LargeKind, limits: Limits) -> Result<Large, LoadFault>
        requires { Bounded limits }
        ensures { Reads (λ x. (x, self.new)) result ((large_operand limits kind).read self.old) }
    {
        large_of(kind, self.next_u32()?, limits)
    }

    fn operands(&mut self, kinds: Kinds, limits: Limits) -> Result<Operands, LoadFault>
        requires { Bounded limits }
        ensures { Reads (λ x. (x, self.new)) result ((all_operands limits kinds).read self.old) }
    {
        let a = self.small_operand(kinds.a)?;
        let b = self.small_operand(kinds.b)?;
        let c = self.small_operand(kinds.c)?;
        let d = self.large_operand(kinds.d, limits)?;
        Ok(Operands { a, b, c, d })
    }

    fn opcode(&mut self, version: Version) -> Result<Mnemonic, LoadFault>
        ensures { Reads (λ x. (x, self.new)) result ((opcode version).read self.old) }
    {
        match Mnemonic::with_opcode(self.byte()?) {
            Some(mnemonic) if mnemonic.is_in(version) => Ok(mnemonic),
            _ => Err(LoadFault::BadOpcode),
        }
    }

    pub fn instruction(&mut self, limits: Limits) -> Result<Instr, LoadFault>
        requires { Bounded limits }
        ensures { Reads (λ x. (x, self.new)) result ((instruction limits).read self.old) }
    {
        // The check has to be told of the types that `Operands` holds.
        let _small: Option<Small> = None;
        let _large: Option<Large> = None;
        let _target: Option<Target> = None;
        let mnemonic = self.opcode(limits.version)?;
        let row = mnemonic.row();
        let operands = self.operands(row.kinds(), limits)?;
        Ok(Instr::make(mnemonic, operands))
    }
}
