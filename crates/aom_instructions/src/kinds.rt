//! What may stand in the operands of an instruction.

/// What may stand in a small operand, of one byte.
#[derive(Clone, Copy)]
pub enum SmallKind {
    Unused,
    Register,
    /// The register of a trap's result, after which one more is written: at most 14.
    TrapResult,
    Word,
    Field,
    Depth,
    CallTarget,
}

/// What may stand in the large operand, of four bytes.
#[derive(Clone, Copy)]
pub enum LargeKind {
    Nothing,
    Number,
    Rounds,
    Place,
    Class,
    Method,
}

/// Where the large operand stands in a text: behind the small ones, or behind the first of them.
#[derive(Clone, Copy)]
pub enum OperandOrder {
    LargeLast,
    LargeSecond,
}

/// What the operands of an instruction are: three small ones and a large one.
#[derive(Clone, Copy)]
pub struct Kinds {
    pub a: SmallKind,
    pub b: SmallKind,
    pub c: SmallKind,
    pub d: LargeKind,
    pub order: OperandOrder,
}
