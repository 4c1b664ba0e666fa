//! The rule of each instruction.
ghost use Rattle.std.specs.Prelude.{◌≡◌, suc, ◌<◌, ◌^◌, IsSome, IfSome, Some, length};
ghost use Rattle.aom_image.specs.Views.{instr_at, method_at};
ghost use Rattle.aom_instructions.specs.Table.{action_of};
ghost use Rattle.aom_typing_rules.specs.Calls.{HasCallee, HasCodeRegister};
ghost use Rattle.aom_abstract_state.specs.Changes.{reported};
ghost use Rattle.aom_typing_rules.specs.Rules.{Reports, rule};

use crate::cleanup::{
    rule_leave, rule_leave_if, rule_new_or_leave, rule_pop, rule_pop_delete, rule_pop_operation,
    rule_push, rule_push_operation,
};
use crate::messages::{rule_hand, rule_reply, rule_take_message};
use crate::natives::{rule_ask, rule_close, rule_connect};
use crate::objects::{
    rule_delete, rule_jump_empty, rule_jump_null, rule_move, rule_new, rule_put, rule_take,
};
use crate::requests::{
    rule_abort, rule_cancel, rule_enlist, rule_issue, rule_jump_active, rule_jump_added,
    rule_set_active, rule_status,
};
use crate::words::{
    rule_combine, rule_compare, rule_const, rule_copy, rule_jump, rule_load, rule_loop, rule_next,
    rule_print, rule_stop, rule_store,
};
use aom_abstract_state::{AbstractState, Flow, Reason};
use aom_image::{Instr, MethodNumber};
use aom_linker::Linked;
use aom_rule_context::{Call, RuleContext};

/// What a rule answers: where a run may go on, or why it may not.
pub type Ruling = Result<Flow, Reason>;

/// The instruction at a place, after which a place can be counted.
fn instr_at(linked: &Linked, method: MethodNumber, place: usize) -> Instr
    requires { IsSome (instr_at linked.now method place) }
    ensures value { instr_at linked.now method place ≡ Some result }
    ensures method { IsSome (method_at linked.now method) }
    ensures place { suc place < 2 ^ 64 }
    ensures callee { HasCallee linked.now (action_of result) }
    ensures code { HasCodeRegister (action_of result) }
{
    let _formed = linked.image().methods();
    linked.method(method).code.as_slice()[place]
}

/// What the instruction at that place asks of the abstract state, and where a run may go on from there: the first need
/// that is not met, or each place with what is known there. There is room for one more cleanup entry.
pub fn rule(
    linked: &Linked,
    method: MethodNumber,
    place: usize,
    shape: &AbstractState<'_>,
) -> Ruling
    requires instr { IsSome (instr_at linked.now method place) }
    requires room { length shape.now.entries < 1024 }
    ensures { IfSome (instr_at linked.now method place) (λ i. reported shape.now.entries result ≡ rule linked.now method place shape.now i) }
{
    let instr = instr_at(linked, method, place);
    let site = RuleContext::new(linked, method, place, shape);
    rule_of(&site, instr)
}

/// The rule of an instruction there.
fn rule_of(site: &RuleContext<'_>, instr: Instr) -> Ruling
    requires callee { HasCallee site.now.image (action_of instr) }
    requires code { HasCodeRegister (action_of instr) }
    ensures { Reports site.now instr result }
{
    match instr {
        Instr::Const(a, _) => rule_const(site, a),
        Instr::Copy(a, b) => rule_copy(site, a, b),
        Instr::Add(a, b, c)
        | Instr::Sub(a, b, c)
        | Instr::Mul(a, b, c)
        | Instr::And(a, b, c)
        | Instr::Or(a, b, c)
        | Instr::Xor(a, b, c) => rule_combine(site, a, b, c),
        Instr::Jump(to) => rule_jump(site, to),
        Instr::JumpEqual(a, b, to) | Instr::JumpLess(a, b, to) => rule_compare(site, a, b, to),
        Instr::Loop(_, _) => rule_loop(site),
        Instr::Next(_, to) => rule_next(site, to),
        Instr::Print(a) => rule_print(site, a),
        Instr::Load(a, w) => rule_load(site, a, w),
        Instr::Store(w, b) => rule_store(site, w, b),
        Instr::Move(a, b) => rule_move(site, a, b),
        Instr::JumpNull(a, to) => rule_jump_null(site, a, to),
        Instr::JumpEmpty(f, to) => rule_jump_empty(site, f, to),
        Instr::Take(a, f) => rule_take(site, a, f),
        Instr::Put(f, b) => rule_put(site, f, b),
        Instr::New(a, class) => rule_new(site, a, class),
        Instr::Delete(a) => rule_delete(site, a),
        Instr::Call(target, callee, first, result) => {
            site.rule_call(&Call::new(target, callee, first, result))
        }
        Instr::Trap(target, callee, first, result) => {
            site.rule_trap(&Call::new(target, callee, first, result))
        }
        Instr::NewOrLeave(a, class) => rule_new_or_leave(site, a, class),
        Instr::Push(a) => rule_push(site, a),
        Instr::PushOperation(a, _) => rule_push_operation(site, a),
        Instr::Pop(a) => rule_pop(site, a),
        Instr::PopOperation => rule_pop_operation(site),
        Instr::PopDelete => rule_pop_delete(site),
        Instr::Leave(a) => rule_leave(site, a),
        Instr::LeaveIf(a) => rule_leave_if(site, a),
        Instr::Return(a) => site.rule_return(a),
        Instr::Stop => rule_stop(site),
        Instr::JumpActive(to) => rule_jump_active(site, to),
        Instr::JumpAdded(to) => rule_jump_added(site, to),
        Instr::Enlist(_) => rule_enlist(site),
        Instr::Issue(a, b) => rule_issue(site, a, b),
        Instr::SetActive => rule_set_active(site),
        Instr::Abort => rule_abort(site),
        Instr::Status(a) => rule_status(site, a),
        Instr::Cancel => rule_cancel(site),
        Instr::Connect(a) => rule_connect(site, a),
        Instr::Ask(a, b, c) => rule_ask(site, a, b, c),
        Instr::Close => rule_close(site),
        Instr::TakeMessage(a) => rule_take_message(site, a),
        Instr::Reply(a, b) => rule_reply(site, a, b),
        Instr::Hand(a) => rule_hand(site, a),
    }
}
