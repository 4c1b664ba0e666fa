//! What holds of the table of instructions, whatever runs.
ghost use Rattle.aom_instructions.specs.Laws.{PartsMakeAgain, MakingPartsAgain, RowsAreOne, SortsNameOperands};

/// Instructions and their parts give each other, and no two rows share an opcode or a mnemonic's text.
pub fn instructions_and_rows()
    ensures { PartsMakeAgain × MakingPartsAgain × RowsAreOne }
{}

/// The transfer of an instruction and its action name just the place, the method and the class among its operands.
pub fn sorts_name_operands()
    ensures { SortsNameOperands }
{}
