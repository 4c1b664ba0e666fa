//! The language's examples are read, each as a program with its last item.
use crate::{Action, read_program};
use aom_source_tokens::Tokens;
use std::alloc::Global;

const STATION: &str =
    "// a weather station: two samplers fill readings, a logger keeps the last of them, clients ask for the next one or wait for an alarm
cells 40;
messages 8;
natives 1;
root Station;

const BUSY = -16;
const GONE = -15;
const BAD = -6;
const LIMIT = 25;

// what is kept of a reading; a warning prints itself in another way
class Reading {
    word value;
    word at;

    construct(v: word, n: word) { value = v; at = n; }

    fn get() -> word { return value; }

    fn tell() { print value; }
}

class Warning : Reading {
    override fn tell() { print 0 - value; }
}

// the last two readings
class Log {
    own last: Reading;
    own before: Reading;
    word count;

    fn add(r: Reading) {
        count += 1;
        before = take last;
        last = r;
    }

    fn tell() {
        last?.tell();
        before?.tell();
    }

    fn highest() -> word {
        let best = -1000;
        if last { let v = last.get(); if v > best { best = v; } }
        if before { let v = before.get(); if v > best { best = v; } }
        return best;
    }

    fn total() -> word { return count; }
}

// one client's wait: for a time
timer class Wait {
    own kept: msg else GONE;

    construct() { enlist 5; }

    fn hold(m: msg, time: word) {
        if active || kept { reply m, BUSY; return; }
        kept = m;
        if enlisted { after time; }
    }

    run { if let m = take kept { reply m, status; } }
}

undo note(code) { print code; }

fn make(value: word, n: word) -> Reading {
    if value > LIMIT {
        let w: Reading = new Warning(value, n);
        return w;
    }
    return new Reading(value, n);
}

// both or none: a leave in between loses nothing
fn both(a: word, b: word, into: Log) -> Log {
    defer note(7);
    let first = make(a, 1);
    let second = make(b, 2);
    into.add(first);
    into.add(second);
    return into;
}

native 0 class Sampler {
    own log: Log;
    word rounds;

    construct() {
        let fresh = new Log();
        log = both(20, 30, fresh);
        enlist 10;
        leaveif connect;
        request 0, 0;
    }

    run {
        let value = status;
        leaveif value;
        rounds += 1;
        let r = make(value, rounds);
        if log { log.add(r); }
        request 0, 0;
    }

    error(code) {
        print code;
        if code == -4 && !active { request 0, 0; }
        return 0;
    }

    fn highest() -> word { if log { return log.highest(); } return 0; }

    fn tell() { log?.tell(); }
}

session class Client {
    own wait: Wait;
    word asked;

    construct() { wait = maybe new Wait(); }

    service(function, time) {
        leaveif function;
        asked += 1;
        if function == 0 { reply message, asked; return; }
        if function == 1 && wait { wait.hold(message, time); return; }
        for i in 0..3 {
            if function == 10 + i { reply message, i * i; return; }
        }
        reply message, BAD;
    }
}

server class Desk of Client max 4 {
    construct() { enlist 1; }
}

timer class Station {
    own sampler: Sampler;
    own desk: Desk;
    word ticks;

    construct() {
        enlist 0;
        desk = new Desk();
        let s = trap new Sampler() catch code { print code; leave code; }
        sampler = s;
        after 10;
    }

    run {
        ticks += 1;
        sampler?.tell();
        if sampler { print sampler.highest(); }
        if ticks < 4 { after 10; } else { stop; }
    }
}

main { root = new Station(); }
";

const TOKEN: &str =
    "// a request that another object completes: the lamp hands its token to an alarm, which replies to it when its time has come
cells 2;
messages 2;
root Lamp;

timer class Alarm {
    own kept: msg else -15;              // as the alarm goes, it replies to the token that it holds

    construct() { enlist 0; }

    fn hold(m: msg) {
        if active || kept { reply m, -16; return; }
        kept = m;
        if enlisted { after 100; }
    }

    run {
        if let m = take kept { reply m, status; }
    }
}

token class Lamp {
    own alarm: Alarm;

    construct() {
        alarm = new Alarm();
        enlist 0;
        if let m = hand { alarm.hold(m); }   // no place for a message: it is complete already, with -16
    }

    run { print status; }
}

main { root = new Lamp(); }
";

const RELAY: &str =
    "// a token goes through two objects, the first of which goes before the second completes the caller's request
cells 4;
messages 1;
root Office;
const BUSY = -16;
const CANCELLED = -3;

class Clerk {
    own kept: msg else CANCELLED;        // whoever has the token at its end tells the caller that it is cancelled

    fn keep(m: msg) {
        if kept { reply m, BUSY; } else { kept = m; }
    }

    fn give() -> msg? { return take kept; }
}

timer class Bell {
    own kept: msg else CANCELLED;

    construct() { enlist 0; }

    fn ring(m: msg) {
        if active || kept { reply m, BUSY; return; }
        kept = m;
        if enlisted { after 100; }
    }

    run {
        if let m = take kept { reply m, 7; }
    }
}

token class Caller {
    own mine: msg else CANCELLED;        // the token of its request, kept until it is asked for

    construct() { enlist 0; mine = hand; }

    fn fetch() -> msg? { return take mine; }

    run { print status; }
}

active class Office {
    own clerk: Clerk;
    own bell: Bell;
    own caller: Caller;

    construct() {
        clerk = new Clerk();
        bell = new Bell();
        caller = new Caller();
        enlist 0;
        if let m = caller.fetch() { clerk.keep(m); }
        resume 0;
    }

    run {                                // the clerk hands the token on, and goes
        if clerk {
            if let m = clerk.give() {
                if bell { bell.ring(m); } else { reply m, CANCELLED; }
                let gone = take clerk;
            }
        }
    }
}

main { root = new Office(); }
";

const ERRORS: &str =
    "// two objects whose handlers leave, and a class that has no error method: a leave with 0 is no error, one with 5 ends the run
cells 3;
root Pair;

active class Failing {
    word code;

    construct(c: word) { code = c; enlist 0; resume 0; }

    run { print code; leave code; }      // leaves with the code that it was made with
}

class Pair {
    own first: Failing;
    own second: Failing;

    construct() {
        first = new Failing(0);
        second = new Failing(5);
    }
}

main { root = new Pair(); }
";

const CANCEL: &str =
    "// a clock that silences the alarm that it owns, in its own handler, before the alarm goes off
cells 2;
root Clock;

timer class Alarm {
    construct() { enlist 0; after 100; }

    run { print 9; }

    fn off() { cancel; }                 // where nothing is waited for it does nothing
}

active class Clock {
    own alarm: Alarm;

    construct() {
        alarm = new Alarm();
        enlist 10;
        resume 0;                        // its own request is completed at once, so that it hears first
    }

    run {
        if alarm { alarm.off(); print 1; }
    }
}

main { root = new Clock(); }
";

/// Whether a text is read.
fn is_read(alloc: Global, text: &str) -> bool {
    match Tokens::of(alloc, text.as_bytes()) {
        Ok(tokens) => match read_program(alloc, &tokens) {
            Ok(items) => match items.last() {
                Some(item) => item.action == Action::ProgramEnd,
                None => false,
            },
            Err(_) => false,
        },
        Err(_) => false,
    }
}

#[test]
fn examples_are_read(rt: HostRuntime) {
    let alloc = rt.alloc();
    assert!(rt; is_read(alloc, STATION));
    assert!(rt; is_read(alloc, TOKEN));
    assert!(rt; is_read(alloc, RELAY));
    assert!(rt; is_read(alloc, ERRORS));
    assert!(rt; is_read(alloc, CANCEL));
}

#[test]
fn what_is_no_program_is_refused(rt: HostRuntime) {
    let alloc = rt.alloc();
    assert!(rt; !is_read(alloc, "main { print 1 }"));
    assert!(rt; !is_read(alloc, "main { print 1; } }"));
    assert!(rt; !is_read(alloc, "class { }"));
}
