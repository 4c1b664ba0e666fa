//! The productions of names.
ghost use Rattle.std.specs.Prelude.{◌≡◌, option_map};
ghost use Rattle.aom_source_syntax.specs.Grammar.{name_rule};

use crate::Action;
use crate::symbol::{Class, Part, Symbol, Symbols};

/// A part of names.
#[derive(Clone, Copy, PartialEq, Eq, Debug)]
pub enum NamePart {
    RootWord,
    RootClass,
    ConstName,
    EnumName,
    MemberName,
    ClassName,
    ParentName,
    SessionName,
    WordName,
    OwnName,
    OwnClass,
    MethodName,
    ParameterName,
    TypeName,
    LetName,
    CodeName,
    CatchName,
    IfName,
    ForName,
    DeletedName,
    DeferredName,
    AssignedName,
    NewClass,
    TakenName,
    ObjectName,
    CalledName,
}

/// What such a part is made of.
pub fn name_production(part: NamePart) -> Option<Symbols>
    ensures { option_map (λ s. s.now) result ≡ name_rule part }
{
    match part {
        NamePart::RootWord => symbols![Class Name, Action RootWord],
        NamePart::RootClass => symbols![Class Name, Action Root],
        NamePart::ConstName => symbols![Class Name, Action ConstName],
        NamePart::EnumName => symbols![Class Name, Action EnumName],
        NamePart::MemberName => symbols![Class Name, Action EnumMember],
        NamePart::ClassName => symbols![Class Name, Action ClassName],
        NamePart::ParentName => symbols![Class Name, Action Parent],
        NamePart::SessionName => symbols![Class Name, Action Sessions],
        NamePart::WordName => symbols![Class Name, Action Word],
        NamePart::OwnName => symbols![Class Name, Action Own],
        NamePart::OwnClass => symbols![Class Name, Action OwnClass],
        NamePart::MethodName => symbols![Class Name, Action MethodName],
        NamePart::ParameterName => symbols![Class Name, Action Parameter],
        NamePart::TypeName => symbols![Class Name, Action ClassType],
        NamePart::LetName => symbols![Class Name, Action LetName],
        NamePart::CodeName => symbols![Class Name, Action CodeName],
        NamePart::CatchName => symbols![Class Name, Action CatchName],
        NamePart::IfName => symbols![Class Name, Action IfName],
        NamePart::ForName => symbols![Class Name, Action ForName],
        NamePart::DeletedName => symbols![Class Name, Action Delete],
        NamePart::DeferredName => symbols![Class Name, Action DeferredName],
        NamePart::AssignedName => symbols![Class Name, Action AssignedName],
        NamePart::NewClass => symbols![Class Name, Action NewClass],
        NamePart::TakenName => symbols![Class Name, Action Take],
        NamePart::ObjectName => symbols![Class Name, Action ObjectName],
        NamePart::CalledName => symbols![Class Name, Action CalledName],
    }
}
