//! The entry of each fault.
ghost use Rattle.std.specs.Prelude.{◌≡◌};
ghost use Rattle.aom_diagnostics.specs.Table.{asm_texts, boot_texts, budget_texts, link_texts, load_texts, script_texts, verify_texts, word_texts};

use crate::{Explanation, Unnumbered, asm, boot, budget, link, load, script, verify, word};
use aom_abstract_state::Reason;
use aom_budget::BudgetFault;
use aom_codec::LoadFault;
use aom_link_conditions::LinkFault;
use aom_natives::BootFault;
use aom_script::ScriptFaultKind;
use aom_text::AsmFaultKind;

/// What is told of a fault that has no number.
pub fn word_entry(fault: Unnumbered) -> Explanation
    ensures { result ≡ word_texts fault }
{
    match fault {
        Unnumbered::Native => word::NATIVE,
        Unnumbered::File => word::FILE,
        Unnumbered::Text => word::TEXT,
        Unnumbered::Write => word::WRITE,
        Unnumbered::Memory => word::MEMORY,
    }
}

/// What is told of bytes that are no image.
pub fn load_entry(fault: LoadFault) -> Explanation
    ensures { result ≡ load_texts fault }
{
    match fault {
        LoadFault::BadMagic => load::BAD_MAGIC,
        LoadFault::BadVersion => load::BAD_VERSION,
        LoadFault::Truncated => load::TRUNCATED,
        LoadFault::Trailing => load::TRAILING,
        LoadFault::LimitPassed => load::LIMIT_PASSED,
        LoadFault::BadOpcode => load::BAD_OPCODE,
        LoadFault::BadOperand => load::BAD_OPERAND,
        LoadFault::BadIndex => load::BAD_INDEX,
        LoadFault::NotZero => load::NOT_ZERO,
        LoadFault::OutOfMemory => word::MEMORY,
    }
}

/// What is told of a text that denotes no image.
pub fn asm_entry(kind: AsmFaultKind) -> Explanation
    ensures { result ≡ asm_texts kind }
{
    match kind {
        AsmFaultKind::NotAscii => asm::NOT_ASCII,
        AsmFaultKind::UnknownWord => asm::UNKNOWN_WORD,
        AsmFaultKind::BadNumber => asm::BAD_NUMBER,
        AsmFaultKind::UnknownName => asm::UNKNOWN_NAME,
        AsmFaultKind::DoubleName => asm::DOUBLE_NAME,
        AsmFaultKind::BadShape => asm::BAD_SHAPE,
        AsmFaultKind::LimitPassed => asm::LIMIT_PASSED,
        AsmFaultKind::OutOfMemory => word::MEMORY,
    }
}

/// What is told of an image whose parts do not go together.
pub fn link_entry(fault: LinkFault) -> Explanation
    ensures { result ≡ link_texts fault }
{
    match fault {
        LinkFault::ClassOrder => link::CLASS_ORDER,
        LinkFault::CallOrder => link::CALL_ORDER,
        LinkFault::MissingRole => link::MISSING_ROLE,
        LinkFault::DoubleRole => link::DOUBLE_ROLE,
        LinkFault::RoleShape => link::ROLE_SHAPE,
        LinkFault::BadJump => link::BAD_JUMP,
        LinkFault::BadLoop => link::BAD_LOOP,
        LinkFault::NoMain => link::NO_MAIN,
        LinkFault::OutOfMemory => word::MEMORY,
        LinkFault::BadParent => link::BAD_PARENT,
        LinkFault::BadOverride => link::BAD_OVERRIDE,
    }
}

/// What is told of a method without a typing.
pub fn verify_entry(why: Reason) -> Explanation
    ensures { result ≡ verify_texts why }
{
    match why {
        Reason::RegisterKind => verify::REGISTER_KIND,
        Reason::OwnedAtLeave => verify::OWNED_AT_LEAVE,
        Reason::OwnedAtReturn => verify::OWNED_AT_RETURN,
        Reason::CleanupAtReturn => verify::CLEANUP_AT_RETURN,
        Reason::PopEmpty => verify::POP_EMPTY,
        Reason::LeaveNotAllowed => verify::LEAVE_NOT_ALLOWED,
        Reason::FieldNotNull => verify::FIELD_NOT_NULL,
        Reason::FieldsLeft => verify::FIELDS_LEFT,
        Reason::NotFresh => verify::NOT_FRESH,
        Reason::StillFresh => verify::STILL_FRESH,
        Reason::NotIdle => verify::NOT_IDLE,
        Reason::NotIssued => verify::NOT_ISSUED,
        Reason::IssuedAtLeave => verify::ISSUED_AT_LEAVE,
        Reason::IssuedAtReturn => verify::ISSUED_AT_RETURN,
        Reason::StillActive => verify::STILL_ACTIVE,
        Reason::NotCancelled => verify::NOT_CANCELLED,
        Reason::MessageAtLeave => verify::MESSAGE_AT_LEAVE,
        Reason::MessageAtReturn => verify::MESSAGE_AT_RETURN,
        Reason::NotAdded => verify::NOT_ADDED,
        Reason::EntryState => verify::ENTRY_STATE,
        Reason::QuietBroken => verify::QUIET_BROKEN,
    }
}

/// What is told of an image that may come to too much.
pub fn budget_entry(fault: BudgetFault) -> Explanation
    ensures { result ≡ budget_texts fault }
{
    match fault {
        BudgetFault::OverBudget { .. } => budget::OVER_BUDGET,
        BudgetFault::TooDeep => budget::TOO_DEEP,
        BudgetFault::CleanupTooDeep => budget::CLEANUP_TOO_DEEP,
        BudgetFault::OutOfMemory => word::MEMORY,
    }
}

/// What is told of a text that is no script.
pub fn script_entry(kind: ScriptFaultKind) -> Explanation
    ensures { result ≡ script_texts kind }
{
    match kind {
        ScriptFaultKind::NotAscii => script::NOT_ASCII,
        ScriptFaultKind::BadLine => script::BAD_LINE,
        ScriptFaultKind::BadNumber => script::BAD_NUMBER,
        ScriptFaultKind::TimeBack => script::TIME_BACK,
        ScriptFaultKind::LimitPassed => script::LIMIT_PASSED,
        ScriptFaultKind::OutOfMemory => word::MEMORY,
    }
}

/// What is told of a machine that is not made.
pub fn boot_entry(fault: BootFault) -> Explanation
    ensures { result ≡ boot_texts fault }
{
    match fault {
        BootFault::TooFewNatives => boot::TOO_FEW_NATIVES,
        BootFault::OutOfMemory => word::MEMORY,
    }
}
