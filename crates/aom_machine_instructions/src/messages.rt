//! Instructions on messages: the one that is served is taken, a message is completed, and one is handed out as a token.
ghost use Rattle.std.specs.Prelude.{◌≡◌, ◌<◌, ◌≤◌, ℕ, List, Some, length};
ghost use Rattle.aom_cells.specs.Heap.{null};
ghost use Rattle.aom_image.specs.Image.{Image};
ghost use Rattle.aom_instructions.specs.declared.instr.Instr.TheVariants.{Hand, Reply, TakeMessage};
ghost use Rattle.aom_machine_instructions.specs.Acts.{Does, WritesLines};
ghost use Rattle.aom_machine_instructions.specs.Next.{IsNext};
ghost use Rattle.aom_machine_instructions.specs.Serving.{Completes, IsTaken, completion_line};
ghost use Rattle.aom_machine_instructions.specs.Tokens.{Answers, Hands, IsAnswerable, Pends, Redeems};
ghost use Rattle.aom_cells.specs.Store.{IsStored};
ghost use Rattle.aom_scheduler.specs.Requests.{state_at};
ghost use Rattle.aom_scheduler.specs.declared.request.RequestState.{RequestState};

use aom_cells::{CellId, MessageId, NULL};
use aom_clients::Completion;
use aom_image::{ClassNumber, Register};
use aom_machine_state::{LineBuffer, Parts};
use aom_transcript::Line;
use std::mem;

/// The code of a request for which no message place is free: KErrServerBusy.
const BUSY: i32 = -16;

/// The words of a token, which has none.
const NO_WORDS: [i32; 5] = [0; 5];

/// The message that is served is taken, and none is served from then on: its number.
pub fn take_served(parts: &mut Parts) -> u32
    ensures number { result ≡ parts.old.served }
    ensures taken { parts.new ≡ record parts.old { served = null } }
{
    mem::replace(&mut parts.served, NULL)
}

/// The message that is served comes to a register.
pub fn take_message(parts: &mut Parts, to: Register)
    requires { (p : Image) × IsNext p (TakeMessage to) parts.old }
    ensures { (refused : List ℕ) → Does refused (TakeMessage to) parts.old parts.new }
{
    let message = take_served(parts);
    parts.set_and_advance(to, message);
}

/// A register's message is completed with the word of another register.
pub fn reply(parts: &mut Parts, from: Register, code: Register, lines: &mut LineBuffer)
    requires next { (p : Image) × IsNext p (Reply from code) parts.old }
    requires room { length lines.old.lines < lines.old.room }
    ensures does { (refused : List ℕ) → Does refused (Reply from code) parts.old parts.new }
    ensures reports { WritesLines (Reply from code) parts.old lines.old lines.new }
{
    let code = parts.word(code);
    let message = parts.take_register(from);
    answer(parts, message, code, lines);
    parts.next();
}

/// What waits for the message of that number is told of the code: the object whose token it is, or else the client that sent it.
fn answer(parts: &mut Parts, number: u32, code: i32, lines: &mut LineBuffer)
    requires open { IsAnswerable number parts.old }
    requires room { length lines.old.lines < lines.old.room }
    ensures { Answers number code parts.old parts.new lines.old lines.new }
{
    let id = MessageId::numbered(number);
    if parts.tokens.class(id).is_some() {
        redeem(parts, id, code);
    } else {
        complete(parts, number, code, lines);
    }
}

/// A token goes, and its place is free. The request that waits for it, if one does, is completed with that code.
fn redeem(parts: &mut Parts, token: MessageId, code: i32)
    requires kept { IsStored parts.old.messages token }
    requires pends { Pends token parts.old }
    ensures { Redeems token code parts.old parts.new }
{
    parts.messages.release(token);
    if let Some(object) = parts.tokens.redeem(token) {
        parts.active.complete(object, code);
    }
}

/// A token of the object whose method runs comes to a register, and its request waits for that. Where no message place is free it is
/// completed at once, and nothing comes.
pub fn hand(parts: &mut Parts, to: Register)
    requires { (p : Image) × IsNext p (Hand to) parts.old }
    ensures { (refused : List ℕ) → Does refused (Hand to) parts.old parts.new }
{
    // Of a living cell the number is below the limit, so there is a place for what it waits for.
    let id = parts.cells.living(parts.stack.this());
    let class = parts.class(id.number());
    let token = hand_out(parts, id, class);
    parts.set_and_advance(to, token);
}

/// A token for the request of that object, which is of that class: its number, or null where no message place is free.
fn hand_out(parts: &mut Parts, id: CellId, class: ClassNumber) -> u32
    requires idle { state_at parts.old.active.table id ≡ Some RequestState.Idle }
    requires object { id < length parts.old.tokens.living }
    requires places { parts.old.messages.limit ≤ length parts.old.tokens.places }
    ensures { Hands result id class parts.old parts.new }
{
    let Some(place) = parts.messages.create(NO_WORDS) else {
        parts.active.issue_own(id, BUSY);
        return NULL;
    };
    parts.tokens.hand(place, id, class.number() as u8);
    parts.active.issue_token(id);
    place.number()
}

/// The message of that number is completed with that code. It is kept no more, and its place and its slot are free.
pub fn complete(parts: &mut Parts, number: u32, code: i32, lines: &mut LineBuffer)
    requires taken { IsTaken number parts.old }
    requires room { length lines.old.lines < lines.old.room }
    ensures { Completes number code parts.old parts.new lines.old lines.new }
{
    let id = MessageId::numbered(number);
    let completion = parts.clients.complete(id.place());
    parts.messages.release(id);
    lines.push(completion_line(completion, code));
}

/// How the client is told of a completion, or that nobody is.
fn completion_line(completion: Completion, code: i32) -> Line
    ensures { result ≡ completion_line completion code }
{
    if completion.is_reported {
        Line::Reply(completion.client, code)
    } else {
        Line::Discard(completion.client, code)
    }
}
