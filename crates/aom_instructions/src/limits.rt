//! What the operands of a method's code are measured by.
ghost use Rattle.std.specs.Prelude.{◌≡◌, ◌<◌, ◌≤◌, ◌↔◌, IsTrue};
ghost use Rattle.aom_instructions.specs.Operands.{SmallFits, LargeFits, OperandsFit, TargetFits};
ghost use Rattle.aom_instructions.specs.Fits.{InstrFits};

use crate::{
    ClassNumber, Instr, InstrPlace, Kinds, Large, LargeKind, MethodNumber, Operands, Small,
    SmallKind, Target, Version,
};

/// The version of the image, and its counts of classes, of methods and of the method's own instructions.
#[derive(Clone, Copy)]
pub struct Limits {
    pub version: Version,
    pub classes: usize,
    pub methods: usize,
    pub places: usize,
}

impl Limits {
    pub fn has_class(self, class: ClassNumber) -> bool
        ensures { IsTrue result ↔ (class < self.classes) }
    {
        (class.number() as usize) < self.classes
    }

    pub fn has_method(self, method: MethodNumber) -> bool
        ensures { IsTrue result ↔ (method < self.methods) }
    {
        (method.number() as usize) < self.methods
    }

    pub fn has_place(self, place: InstrPlace) -> bool
        ensures { IsTrue result ↔ (place < self.places) }
    {
        (place.number() as usize) < self.places
    }

    fn admits(self, kind: LargeKind, operand: Large) -> bool
        ensures { IsTrue result ↔ LargeFits self kind operand }
    {
        match (kind, operand) {
            (LargeKind::Nothing, Large::Nothing) | (LargeKind::Number, Large::Number(_)) => true,
            (LargeKind::Rounds, Large::Rounds(rounds)) => rounds != 0,
            (LargeKind::Place, Large::Place(place)) => self.has_place(place),
            (LargeKind::Class, Large::Class(class)) => self.has_class(class),
            (LargeKind::Method, Large::Method(method)) => self.has_method(method),
            _ => false,
        }
    }

    /// Whether operands are of these kinds, each in its range.
    fn admit(self, kinds: Kinds, operands: &Operands) -> bool
        ensures { IsTrue result ↔ OperandsFit self kinds operands.now }
    {
        small_fits(kinds.a, operands.a)
            && small_fits(kinds.b, operands.b)
            && small_fits(kinds.c, operands.c)
            && self.admits(kinds.d, operands.d)
    }
}

fn target_fits(target: Target) -> bool
    ensures { IsTrue result ↔ TargetFits target }
{
    match target {
        Target::This => true,
        Target::Register(register) => register.number() < 16,
        Target::Field(field) => field.number() < 8,
        Target::Entry(entry) => entry.number() < 16,
    }
}

fn small_fits(kind: SmallKind, operand: Small) -> bool
    ensures { IsTrue result ↔ SmallFits kind operand }
{
    match (kind, operand) {
        (SmallKind::Unused, Small::Unused) => true,
        (SmallKind::Register, Small::Register(register)) => register.number() < 16,
        (SmallKind::TrapResult, Small::Register(register)) => register.number() <= 14,
        (SmallKind::Word, Small::Word(word)) => word.number() < 8,
        (SmallKind::Field, Small::Field(field)) => field.number() < 8,
        (SmallKind::Depth, Small::Depth(depth)) => depth.number() < 4,
        (SmallKind::CallTarget, Small::CallTarget(target)) => target_fits(target),
        _ => false,
    }
}

/// Whether the version has an instruction, and it has the operands that its row asks.
pub fn fits(instr: &Instr, limits: Limits) -> bool
    ensures { IsTrue result ↔ InstrFits limits instr.now }
{
    let mnemonic = instr.mnemonic();
    mnemonic.is_in(limits.version) && limits.admit(mnemonic.row().kinds(), &instr.operands())
}
