//! What stands behind a mnemonic: operands of the kinds that its row asks.
ghost use Rattle.std.specs.Prelude.{◌≡◌};
ghost use Rattle.aom_syntax.specs.Reading.{Reads};
ghost use Rattle.aom_syntax.specs.Words.{small_operand, large_operand, operands_read, words_operands};

use crate::operands::{LAST_REGISTER, LAST_RESULT};
use crate::{NameList, Scope, WordReader};
use aom_image::{
    Instr, Kinds, Large, LargeKind, Mnemonic, OperandOrder, Operands, Small, SmallKind, Target,
};
use aom_text::AsmFaultKind;

type Read<T> = Result<T, AsmFaultKind>;

impl<'a> WordReader<'a> {
    /// A register is r0 where no word is left.
    fn small_operand(&mut self, kind: SmallKind) -> Read<Small>
        ensures { Reads (λ x. (x, self.new)) result (small_operand kind self.old) }
    {
        match kind {
            SmallKind::Unused => Ok(Small::Unused),
            SmallKind::Register => Ok(Small::Register(self.last_register(LAST_REGISTER)?)),
            SmallKind::TrapResult => Ok(Small::Register(self.last_register(LAST_RESULT)?)),
            SmallKind::Word => Ok(Small::Word(self.word_field()?)),
            SmallKind::Field => Ok(Small::Field(self.field()?)),
            SmallKind::Depth => Ok(Small::Depth(self.depth()?)),
            SmallKind::CallTarget => Ok(Small::CallTarget(self.target()?)),
        }
    }

    fn large_operand(&mut self, kind: LargeKind, scope: &Scope, labels: &NameList) -> Read<Large>
        ensures { Reads (λ x. (x, self.new)) result (large_operand scope.now labels.now kind self.old) }
    {
        match kind {
            LargeKind::Nothing => Ok(Large::Nothing),
            LargeKind::Number => Ok(Large::Number(self.signed()?)),
            LargeKind::Rounds => Ok(Large::Rounds(self.rounds()?)),
            LargeKind::Place => Ok(Large::Place(self.label(scope, labels)?)),
            LargeKind::Class => Ok(Large::Class(self.class(scope)?)),
            LargeKind::Method => Ok(Large::Method(self.method(scope)?)),
        }
    }

    fn operands(&mut self, kinds: Kinds, scope: &Scope, labels: &NameList) -> Read<Operands>
        ensures { Reads (λ x. (x, self.new)) result (operands_read scope.now labels.now kinds self.old) }
    {
        let a = self.small_operand(kinds.a)?;
        match kinds.order {
            OperandOrder::LargeLast => {
                let b = self.small_operand(kinds.b)?;
                let c = self.small_operand(kinds.c)?;
                let d = self.large_operand(kinds.d, scope, labels)?;
                Ok(Operands { a, b, c, d })
            }
            OperandOrder::LargeSecond => {
                let d = self.large_operand(kinds.d, scope, labels)?;
                let b = self.small_operand(kinds.b)?;
                let c = self.small_operand(kinds.c)?;
                Ok(Operands { a, b, c, d })
            }
        }
    }

    /// The instruction of a mnemonic, from what stands behind it.
    pub fn behind(&mut self, mnemonic: Mnemonic, scope: &Scope, labels: &NameList) -> Read<Instr>
        ensures { Reads (λ x. (x, self.new)) result (words_operands scope.now labels.now mnemonic self.old) }
    {
        // The check has to be told of the types that `Operands` holds.
        let _small: Option<Small> = None;
        let _large: Option<Large> = None;
        let _target: Option<Target> = None;
        let row = mnemonic.row();
        let operands = self.operands(row.kinds(), scope, labels)?;
        Ok(Instr::make(mnemonic, operands))
    }
}
