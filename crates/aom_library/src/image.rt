//! The image: its parts, what it is well formed by, its bytes.

pub use aom_codec::{LoadFault, decode, encode};
pub use aom_image::{
    Argument, ClassDecl, ClassKind, ClassNumber, EntryDepth, FieldIndex, Gives, Header, Image,
    Instr, InstrPlace, Items, LoopDepth, Method, MethodFlags, MethodNumber, Mnemonic, NativeNumber,
    Provider, Register, Role, States, Target, Thing, Version, WordIndex, form_ok, serialized_len,
};
