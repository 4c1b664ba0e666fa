//! The first need of an instruction that is not met, of those that are told.
ghost use Rattle.std.specs.Prelude.{◌≡◌, ◌+◌, ◌≤◌, ◌<◌, length};
ghost use Rattle.aom_image.specs.Views.{arguments_of, method_class};
ghost use Rattle.aom_needs.specs.Asked.{argument_wanted, each_wanted, given_wanted, moved_wanted, owner_wanted, put_wanted, result_wanted, target_wanted, wanted};
ghost use Rattle.aom_needs.specs.Wanted.{first_at};
ghost use Rattle.aom_instructions.specs.Table.{action_of};
ghost use Rattle.aom_typing_rules.specs.Calls.{HasCodeRegister};

use crate::methods::{arguments_of, class_of};
use crate::unmet::first_unmet;
use crate::{ClassNeed, Operand, Wanted};
use aom_image::{
    Argument, ClassNumber, FieldIndex, Gives, Instr, MethodNumber, Register, Target, Thing,
};
use aom_roles::gives_of;
use aom_rule_context::{Call, RuleContext};

/// What comes into a field that is declared for that thing, from a register.
fn put_wanted(declared: Option<Thing>, field: FieldIndex, register: Register) -> Wanted
    ensures { result ≡ put_wanted declared field register }
{
    match declared {
        None => Wanted::Field(field),
        Some(thing) => Wanted::OwnerOrNull(register, thing),
    }
}

/// What a method of that class is called on.
fn owner_wanted(class: Option<ClassNumber>, operand: Operand, method: MethodNumber) -> Wanted
    ensures { result ≡ owner_wanted class operand method }
{
    match class {
        None => Wanted::MethodOfObjects(method),
        Some(class) => Wanted::Owner(operand, Thing::Object(class)),
    }
}

fn argument_wanted(argument: Argument, register: Register) -> Wanted
    ensures { result ≡ argument_wanted argument register }
{
    match argument {
        Argument::Word => Wanted::Word(register),
        Argument::Own(thing) => Wanted::Owner(Operand::Register(register), thing),
    }
}

/// What a method gives back that gives that.
fn result_wanted(gives: Gives, register: Register) -> Wanted
    ensures { result ≡ result_wanted gives register }
{
    match gives {
        Gives::Nothing | Gives::Left(_) => Wanted::NoResult(register),
        Gives::Word => Wanted::Word(register),
        Gives::Own(thing) => Wanted::Owner(Operand::Register(register), thing),
        Gives::Maybe(thing) => Wanted::OwnerOrNull(register, thing),
    }
}

fn unmet_target(site: &RuleContext<'_>, call: &Call) -> Option<Wanted>
    ensures { result ≡ first_at site.now (target_wanted call.now.target (method_class site.now.image call.now.method) call.now.method call.now.first) }
{
    let class = class_of(site.linked, call.method);
    match call.target {
        Target::This => first_unmet(site, &[Wanted::OwnObject(call.method)]),
        Target::Register(register) => {
            let owner = owner_wanted(class, Operand::Register(register), call.method);
            let apart = Wanted::NoArgument(register, call.first, call.method);
            first_unmet(site, &[owner, apart])
        }
        Target::Field(field) => {
            first_unmet(
                site,
                &[owner_wanted(class, Operand::Field(field), call.method)],
            )
        }
        Target::Entry(number) => {
            first_unmet(
                site,
                &[owner_wanted(class, Operand::Entry(number), call.method)],
            )
        }
    }
}

fn register_at(number: usize) -> Register
    requires { number < 16 }
    ensures { result ≡ number }
{
    Register::new(number as u8).unwrap()
}

fn unmet_argument(site: &RuleContext<'_>, arguments: &[Argument], first: Register) -> Option<Wanted>
    requires { first + length arguments.now ≤ 16 }
    ensures { result ≡ first_at site.now (each_wanted arguments.now first) }
{
    let first = first.number() as usize;
    for index in 0..arguments.len() {
        let wanted = argument_wanted(arguments[index], register_at(first + index));
        let unmet = first_unmet(site, &[wanted]);
        if unmet.is_some() {
            return unmet;
        }
    }
    None
}

/// The first of a call that is not met before its arguments move.
fn unmet_given(site: &RuleContext<'_>, call: &Call) -> Option<Wanted>
    ensures { result ≡ first_at site.now (given_wanted site.now.image site.now.method call.now.target call.now.method call.now.first) }
{
    let target = unmet_target(site, call);
    if target.is_some() {
        return target;
    }
    let within = first_unmet(site, &[Wanted::Arguments(call.method, call.first)]);
    if within.is_some() {
        return within;
    }
    unmet_argument(site, arguments_of(site.linked, call.method), call.first)
}

/// The first that is not met once the arguments of a call have moved.
pub(crate) fn unmet_moved(site: &RuleContext<'_>, instr: Instr) -> Option<Wanted>
    requires { HasCodeRegister (action_of instr) }
    ensures { result ≡ first_at site.now (moved_wanted instr) }
{
    match instr {
        Instr::Call(target, callee, _, c) => {
            let begin = Wanted::Begin(callee, target);
            first_unmet(site, &[begin, Wanted::ResultRegister(callee, c)])
        }
        Instr::Trap(target, callee, _, c) => {
            let begin = Wanted::Begin(callee, target);
            let result = Wanted::ResultRegister(callee, c);
            let code = Wanted::Unowning(register_at(c.number() as usize + 1));
            first_unmet(site, &[begin, result, code])
        }
        _ => None,
    }
}

/// The first that is not met where the instruction is.
pub(crate) fn unmet(site: &RuleContext<'_>, instr: Instr) -> Option<Wanted>
    ensures { result ≡ first_at site.now (wanted site.now.image site.now.method instr) }
{
    match instr {
        Instr::Const(a, _) => first_unmet(site, &[Wanted::Unowning(a)]),
        Instr::Copy(a, b) => first_unmet(site, &[Wanted::Word(b), Wanted::Unowning(a)]),
        Instr::Add(a, b, c)
        | Instr::Sub(a, b, c)
        | Instr::Mul(a, b, c)
        | Instr::And(a, b, c)
        | Instr::Or(a, b, c)
        | Instr::Xor(a, b, c) => {
            first_unmet(
                site,
                &[Wanted::Word(b), Wanted::Word(c), Wanted::Unowning(a)],
            )
        }
        Instr::JumpEqual(a, b, _) | Instr::JumpLess(a, b, _) => {
            first_unmet(site, &[Wanted::Word(a), Wanted::Word(b)])
        }
        Instr::Print(a) => first_unmet(site, &[Wanted::Word(a)]),
        Instr::Load(a, w) => first_unmet(site, &[Wanted::Unowning(a), Wanted::ObjectWord(w)]),
        Instr::Store(w, b) => first_unmet(site, &[Wanted::Word(b), Wanted::ObjectWord(w)]),
        Instr::Move(a, b) => first_unmet(site, &[Wanted::ObjectOrNull(b), Wanted::Unowning(a)]),
        Instr::JumpNull(a, _) => first_unmet(site, &[Wanted::ObjectOrNull(a)]),
        Instr::JumpEmpty(f, _) => first_unmet(site, &[Wanted::Field(f)]),
        Instr::Take(a, f) => first_unmet(site, &[Wanted::Unowning(a), Wanted::Field(f)]),
        Instr::Put(f, b) => first_unmet(site, &[put_wanted(site.declared(f), f, b)]),
        Instr::New(a, _) | Instr::NewOrLeave(a, _) => first_unmet(site, &[Wanted::Unowning(a)]),
        Instr::Delete(a) => first_unmet(site, &[Wanted::Deletable(a)]),
        Instr::Call(target, callee, first, c) | Instr::Trap(target, callee, first, c) => {
            unmet_given(site, &Call::new(target, callee, first, c))
        }
        Instr::Return(a) => {
            let result = result_wanted(gives_of(site.linked.image(), site.method), a);
            first_unmet(site, &[result, Wanted::Inactive, Wanted::End])
        }
        Instr::Push(a) => first_unmet(site, &[Wanted::Pushable(a)]),
        Instr::PushOperation(a, _) | Instr::Leave(a) | Instr::LeaveIf(a) => {
            first_unmet(site, &[Wanted::Word(a)])
        }
        Instr::Pop(a) => first_unmet(site, &[Wanted::Unowning(a), Wanted::LastObject]),
        Instr::PopOperation => first_unmet(site, &[Wanted::LastOperation]),
        Instr::JumpActive(_) | Instr::SetActive | Instr::Cancel => {
            first_unmet(site, &[Wanted::OfClass(ClassNeed::Active)])
        }
        Instr::JumpAdded(_) | Instr::Enlist(_) => {
            first_unmet(site, &[Wanted::OfClass(ClassNeed::Listed)])
        }
        Instr::Issue(a, b) => {
            let issuing = Wanted::OfClass(ClassNeed::Issuing);
            first_unmet(site, &[Wanted::Word(a), Wanted::Word(b), issuing])
        }
        Instr::Abort => {
            let active = Wanted::OfClass(ClassNeed::Active);
            first_unmet(site, &[active, Wanted::Cancelling])
        }
        Instr::Status(a) => {
            let active = Wanted::OfClass(ClassNeed::Active);
            first_unmet(site, &[Wanted::Unowning(a), active])
        }
        Instr::Connect(a) => {
            let native = Wanted::OfClass(ClassNeed::Native);
            first_unmet(site, &[Wanted::Unowning(a), native])
        }
        Instr::Ask(a, b, c) => {
            let native = Wanted::OfClass(ClassNeed::Native);
            first_unmet(
                site,
                &[
                    Wanted::Word(b),
                    Wanted::Word(c),
                    Wanted::Unowning(a),
                    native,
                ],
            )
        }
        Instr::Close => first_unmet(site, &[Wanted::OfClass(ClassNeed::Native)]),
        Instr::TakeMessage(a) => {
            first_unmet(
                site,
                &[Wanted::Unowning(a), Wanted::Service, Wanted::Message],
            )
        }
        Instr::Reply(a, b) => {
            let message = Wanted::Owner(Operand::Register(a), Thing::Message);
            first_unmet(site, &[message, Wanted::Word(b)])
        }
        Instr::Hand(a) => {
            let token = Wanted::OfClass(ClassNeed::Token);
            first_unmet(site, &[Wanted::Unowning(a), token])
        }
        Instr::Jump(_) | Instr::Loop(_, _) | Instr::Next(_, _) | Instr::PopDelete | Instr::Stop => {
            None
        }
    }
}
