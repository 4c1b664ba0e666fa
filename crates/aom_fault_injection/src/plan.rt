//! Which injections are tried.
ghost use Rattle.std.specs.Prelude.{◌≡◌, ◌≤◌, [], ◌++◌, All, IfOk, drop, length, map, min, take};
ghost use Rattle.aom_fault_injection.specs.Injections.{CanInject};
ghost use Rattle.aom_fault_injection.specs.Planned.{AreTimes, Grows, clients_among, deaths_of, first_of, is_named, is_of, natives_among, pairs_of, pairs_with, part_of, planned, unplanned, victims_of};
ghost use Rattle.aom_fault_injection.specs.declared.injection.Injection.TheVariants.{Death, Refusal};
ghost use Rattle.aom_fault_injection.specs.declared.injection.KillTarget.TheVariants.{Client, Native};

use crate::{Injection, KillTarget, Part, Tries};
use aom_script::Script;
use aom_transcript::Event;
use std::alloc::{AllocError, Global};

/// Of so many natives a script may speak.
const MAX_NATIVES: usize = 16;

/// And of so many clients.
const MAX_CLIENTS: u8 = 64;

/// What is tried, in its order, and the first pair that is left out.
#[derive(Drop)]
pub struct Plan {
    pub injections: Vec<Injection>,
    pub left: Option<Injection>,
}

impl Plan {
    /// What is tried of a run under that script, beside so many natives, which makes so many requests and does something at those times.
    pub fn new(
        alloc: Global,
        tries: Tries,
        natives: usize,
        script: &Script,
        requests: u64,
        times: &[u64],
    ) -> Result<Plan, AllocError>
        requires { AreTimes times.now }
        ensures injections { IfOk result (λ plan. plan.injections.items ≡ planned tries natives script.now.timed requests times.now) }
        ensures left { IfOk result (λ plan. plan.left ≡ unplanned tries requests) }
        ensures can { IfOk result (λ plan. All CanInject plan.injections.items) }
    {
        let mut injections = Vec::new(alloc);
        add_refusals(&mut injections, tries.part, requests)?;
        let victims = victims_of(alloc, tries, natives, script)?;
        add_deaths(&mut injections, times, victims.as_slice())?;
        let left = match tries.pairs {
            Some(most) => add_some_pairs(alloc, &mut injections, tries.part, requests, most)?,
            None => None,
        };
        Ok(Plan { injections, left })
    }
}

/// Adds a refusal of each request of a part, of so many.
fn add_refusals(
    injections: &mut Vec<Injection>,
    part: Part,
    requests: u64,
) -> Result<(), AllocError>
    ensures { IfOk result (λ _. injections.new.items ≡ injections.old.items ++ map Refusal (part_of part requests)) }
{
    let last = u64::from(part.last).min(requests);
    let mut number = u64::from(part.first);
    while number <= last {
        injections.push(Injection::Refusal(number as u32))?;
        number += 1;
    }
    Ok(())
}

/// Who is killed or dies.
fn victims_of(
    alloc: Global,
    tries: Tries,
    natives: usize,
    script: &Script,
) -> Result<Vec<KillTarget>, AllocError>
    ensures { IfOk result (λ victims. victims.items ≡ victims_of tries natives script.now.timed) }
{
    let mut victims = Vec::new(alloc);
    add_natives(&mut victims, tries.kills, natives)?;
    add_clients(&mut victims, tries.deaths, script)?;
    Ok(victims)
}

/// Adds each native, where they are killed.
fn add_natives(victims: &mut Vec<KillTarget>, kills: bool, natives: usize) -> Result<(), AllocError>
    ensures { IfOk result (λ _. victims.new.items ≡ victims.old.items ++ natives_among kills natives) }
{
    if !kills {
        return Ok(());
    }
    let count = natives.min(MAX_NATIVES);
    let mut native = 0;
    while native < count {
        victims.push(KillTarget::Native(native as u8))?;
        native += 1;
    }
    Ok(())
}

/// Adds each client that the script names, where they die.
fn add_clients(
    victims: &mut Vec<KillTarget>,
    deaths: bool,
    script: &Script,
) -> Result<(), AllocError>
    ensures { IfOk result (λ _. victims.new.items ≡ victims.old.items ++ clients_among deaths script.now.timed) }
{
    if !deaths {
        return Ok(());
    }
    let mut client = 0;
    while client < MAX_CLIENTS {
        if is_named(script, client) {
            victims.push(KillTarget::Client(client))?;
        }
        client += 1;
    }
    Ok(())
}

fn is_named(script: &Script, client: u8) -> bool
    ensures { result ≡ is_named script.now.timed client }
{
    script
        .events()
        .iter()
        .any(|event| is_of(event.event, client))
}

fn is_of(event: Event, client: u8) -> bool
    ensures { result ≡ is_of client event }
{
    match event {
        Event::Client(other, _) => other == client,
        _ => false,
    }
}

/// Adds the death of each of them at each of the times.
fn add_deaths(
    injections: &mut Vec<Injection>,
    times: &[u64],
    victims: &[KillTarget],
) -> Result<(), AllocError>
    ensures { IfOk result (λ _. injections.new.items ≡ injections.old.items ++ deaths_of times.now victims.now) }
{
    for time in times {
        add_deaths_at(injections, *time, victims)?;
    }
    Ok(())
}

fn add_deaths_at(
    injections: &mut Vec<Injection>,
    time: u64,
    victims: &[KillTarget],
) -> Result<(), AllocError>
    ensures { IfOk result (λ _. injections.new.items ≡ injections.old.items ++ map (Death time) victims.now) }
{
    for victim in victims {
        injections.push(Injection::Death(time, *victim))?;
    }
    Ok(())
}

/// Adds the first so many pairs of refused requests, and answers the first that is left out.
fn add_some_pairs(
    alloc: Global,
    injections: &mut Vec<Injection>,
    part: Part,
    requests: u64,
    most: u32,
) -> Result<Option<Injection>, AllocError>
    ensures pairs { IfOk result (λ _. injections.new.items ≡ injections.old.items ++ take most (pairs_of part requests)) }
    ensures left { IfOk result (λ left. left ≡ first_of (drop most (pairs_of part requests))) }
{
    let mut pairs = Vec::new(alloc);
    let left = add_pairs(&mut pairs, part, requests, most as usize)?;
    injections.extend_from_slice(pairs.as_slice())?;
    Ok(left)
}

/// Adds pairs whose lower request is one of the part, and answers the first for which there is no room.
fn add_pairs(
    pairs: &mut Vec<Injection>,
    part: Part,
    requests: u64,
    most: usize,
) -> Result<Option<Injection>, AllocError>
    requires { pairs.old.items ≡ [] }
    ensures { IfOk result (λ left. Grows [] (pairs_of part requests) most pairs.new.items left) }
{
    let end = u64::from(part.last).min(requests);
    let last = requests.min(u64::from(u32::MAX));
    let mut number = u64::from(part.first);
    while number <= end {
        let left = add_pairs_with(pairs, number as u32, last as u32, most)?;
        if left.is_some() {
            return Ok(left);
        }
        number += 1;
    }
    Ok(None)
}

/// Adds the pairs of that request and each later one, and answers the first for which there is no room.
fn add_pairs_with(
    pairs: &mut Vec<Injection>,
    number: u32,
    last: u32,
    most: usize,
) -> Result<Option<Injection>, AllocError>
    requires { length pairs.old.items ≤ most }
    ensures { IfOk result (λ left. Grows pairs.old.items (pairs_with last number) most pairs.new.items left) }
{
    let mut other = u64::from(number) + 1;
    while other <= u64::from(last) {
        let pair = Injection::Pair(number, other as u32);
        if pairs.len() >= most {
            return Ok(Some(pair));
        }
        pairs.push(pair)?;
        other += 1;
    }
    Ok(None)
}
