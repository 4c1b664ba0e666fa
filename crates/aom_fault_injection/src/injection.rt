//! What befalls a run.
ghost use Rattle.std.specs.Prelude.{◌≡◌, ◌≤◌, ◌+◌, ◌++◌, length, IfOk};
ghost use Rattle.aom_script.specs.Script.{IsTimely};
ghost use Rattle.aom_fault_injection.specs.Injections.{CanInject, injected, end_of, injection_text, victim_text};

use aom_script::Script;
use aom_transcript::{ClientCommand, Event, Text, TimedEvent};
use std::alloc::{AllocError, Global};

/// No injection's words are longer.
const LONGEST: usize = 48;

/// The words of an injection.
pub type InjectionText = Text<LONGEST>;

/// Who can be killed or die.
#[derive(Clone, Copy)]
pub enum KillTarget {
    /// The native of that number.
    Native(u8),
    /// The client of that number.
    Client(u8),
}

/// What befalls a run beside what its script says.
#[derive(Clone, Copy)]
pub enum Injection {
    /// The allocation request of that number is refused.
    Refusal(u32),
    /// The requests of both numbers are refused.
    Pair(u32, u32),
    /// At that time somebody is killed or dies.
    Death(u64, KillTarget),
}

impl KillTarget {
    /// The event by which it goes.
    fn end(self) -> Event
        ensures { result ≡ end_of self }
    {
        match self {
            KillTarget::Native(native) => Event::Kill(native),
            KillTarget::Client(client) => Event::Client(client, ClientCommand::Die),
        }
    }
}

impl Injection {
    /// The script that says this too.
    pub fn inject(self, alloc: Global, script: &Script) -> Result<Script, AllocError>
        ensures script { IfOk result (λ given. given ≡ injected self script.now) }
        ensures timely { CanInject self → IsTimely script.now.timed → IfOk result (λ given. IsTimely given.timed) }
    {
        match self {
            Injection::Refusal(number) => script.with_refusal(alloc, number),
            Injection::Pair(number, other) => {
                let one = script.with_refusal(alloc, number)?;
                let both = one.with_refusal(alloc, other);
                drop(one);
                both
            }
            Injection::Death(time, victim) => {
                let event = victim.end();
                script.with_event(alloc, TimedEvent { time, event })
            }
        }
    }

    /// The words by which a script says it.
    pub fn text(self) -> InjectionText
        ensures text { result ≡ injection_text self }
        ensures short { length result ≤ 40 }
    {
        let mut text = InjectionText::new();
        match self {
            Injection::Refusal(number) => text.add_count(b"refuse ", number),
            Injection::Pair(number, other) => {
                text.add_count(b"refuse ", number);
                text.add_count(b" refuse ", other);
            }
            Injection::Death(time, victim) => {
                text.add_number(time);
                victim.add_to(&mut text);
            }
        }
        text
    }
}

impl KillTarget {
    /// Adds what happens to it.
    fn add_to(self, text: &mut InjectionText)
        requires { length text.old + 9 ≤ 48 }
        ensures text { text.new ≡ text.old ++ victim_text self }
        ensures short { length text.new ≤ length text.old + 9 }
    {
        match self {
            KillTarget::Native(native) => text.add_count(b" kill ", native),
            KillTarget::Client(client) => text.add_count(b" die ", client),
        }
    }
}
