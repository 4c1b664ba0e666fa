//! Words that are written to registers which nothing reads.
ghost use Rattle.std.specs.Prelude.{◌≡◌, ◌↔◌, IsTrue, length, true};
ghost use Rattle.aom_image.specs.Views.{arguments_of};
ghost use Rattle.aom_instructions.specs.Table.{transfer_of};
ghost use Rattle.aom_warnings.specs.Registers.{transfer_reads, IsUnread, call_reads, is_register, is_target, operands_read, reads, writes_first, written_word};

use aom_image::{Image, Instr, Method, MethodNumber, Mnemonic, Operands, Register, Small, Target};
use aom_instructions::{Action, Transfer};
use aom_roles::gives_nothing;

/// The register that an instruction writes a word to, and does no more.
#[tactic(auto, unfolding(crate::specs::Registers::written_word))]
pub fn written_word(instr: &Instr) -> Option<Register>
    ensures { result ≡ written_word instr.now }
{
    match *instr {
        Instr::Const(to, _)
        | Instr::Copy(to, _)
        | Instr::Add(to, _, _)
        | Instr::Sub(to, _, _)
        | Instr::Mul(to, _, _)
        | Instr::And(to, _, _)
        | Instr::Or(to, _, _)
        | Instr::Xor(to, _, _)
        | Instr::Load(to, _) => Some(to),
        _ => None,
    }
}

/// Whether the first operand is what an instruction writes.
fn writes_first(mnemonic: Mnemonic) -> bool
    ensures { result ≡ writes_first mnemonic }
{
    matches!(
        mnemonic,
        Mnemonic::Const
            | Mnemonic::Copy
            | Mnemonic::Move
            | Mnemonic::Add
            | Mnemonic::Sub
            | Mnemonic::Mul
            | Mnemonic::And
            | Mnemonic::Or
            | Mnemonic::Xor
            | Mnemonic::Load
            | Mnemonic::Take
            | Mnemonic::New
            | Mnemonic::NewOrLeave
            | Mnemonic::Pop
            | Mnemonic::Status
            | Mnemonic::Connect
            | Mnemonic::Ask
            | Mnemonic::TakeMessage
            | Mnemonic::Hand
    )
}

fn is_register(register: Register, operand: Small) -> bool
    ensures { result ≡ is_register register operand }
{
    match operand {
        Small::Register(other) => other.number() == register.number(),
        _ => false,
    }
}

fn is_target(register: Register, target: Target) -> bool
    ensures { result ≡ is_target register target }
{
    match target {
        Target::Register(other) => other.number() == register.number(),
        _ => false,
    }
}

/// How many arguments a method takes.
#[tactic(auto, unfolding(aom_image::specs::Views::arguments_in, aom_image::specs::Views::method_at))]
fn argument_count(image: &Image, method: MethodNumber) -> usize
    ensures { result ≡ length (arguments_of image.now method) }
{
    let methods = image.methods();
    match methods.as_slice().get(method.number() as usize) {
        Some(method) => method.arguments.len(),
        None => 0,
    }
}

/// Whether a call on a target, with arguments from the first register on, reads a register.
fn call_reads(
    image: &Image,
    target: Target,
    called: MethodNumber,
    first: Register,
    register: Register,
) -> bool
    ensures { result ≡ call_reads image.now target called first register }
{
    let (first, number) = (first.number() as usize, register.number() as usize);
    let count = argument_count(image, called);
    is_target(register, target) || (first <= number && number - first < count)
}

/// Whether another instruction reads a register that it names.
fn operands_read(mnemonic: Mnemonic, operands: Operands, register: Register) -> bool
    ensures { result ≡ operands_read mnemonic operands register }
{
    (!writes_first(mnemonic) && is_register(register, operands.a))
        || is_register(register, operands.b)
        || is_register(register, operands.c)
}

/// Whether an instruction that calls nothing reads a register.
fn transfer_reads(method: &Method, register: Register, instr: &Instr) -> bool
    ensures { result ≡ transfer_reads method.now register instr.now (transfer_of instr.now) }
{
    match &instr.transfer() {
        Transfer::Return(given) => {
            !gives_nothing(method.gives) && given.number() == register.number()
        }
        _ => operands_read(instr.mnemonic(), instr.operands(), register),
    }
}

/// Whether an instruction of a method reads a register.
#[tactic(auto, unfolding(crate::specs::Registers::reads))]
fn reads(image: &Image, method: &Method, register: Register, instr: &Instr) -> bool
    ensures { result ≡ reads image.now method.now register instr.now }
{
    match &instr.action() {
        Action::Call(_, target, called, first, _) => {
            call_reads(image, *target, *called, *first, register)
        }
        _ => transfer_reads(method, register, instr),
    }
}

/// Whether nothing in a method reads a register.
pub fn is_unread(image: &Image, method: &Method, register: Register) -> bool
    ensures { IsTrue result ↔ IsUnread image.now method.now register }
{
    let code = method.code.as_slice();
    code.iter()
        .all(|instr| !reads(image, method, register, instr))
}
