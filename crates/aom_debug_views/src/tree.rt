//! What hangs from a place: the line of what it owns, and then those of all that is below.
ghost use Rattle.std.specs.Prelude.{◌≡◌, ◌<◌, ◌≤◌, ◌+◌, ◌*◌, ◌++◌, IfErr, IfOk, IfSome, codes, length};
ghost use Rattle.aom_cells.specs.Heap.{Lives};
ghost use Rattle.aom_clients.specs.Clients.{client_after, client_at, first_client, sessions_at};
ghost use Rattle.aom_image.specs.Image.{Image};
ghost use Rattle.aom_machine_state.specs.Places.{session_with};
ghost use Rattle.aom_machine_state.specs.Stands.{Stands};
ghost use Rattle.aom_clients.specs.Lists.{IsIn};
ghost use Rattle.aom_transcript.specs.Sinks.{after};
ghost use Rattle.aom_semantics.specs.Places.{Place as PlaceOf, held};
ghost use Rattle.aom_transcript.specs.Text.{ended};
ghost use Rattle.aom_debug_symbols.specs.NameLists.{class_by};
ghost use Rattle.aom_debug_symbols.specs.Answers.{observer_by};
ghost use Rattle.aom_debug_views.specs.Owners.{Outer, Shows, Way as WayRecord, grown, message_text, outer_text, owners_text, sender_of, source_at, tree, way_text};
ghost use Rattle.aom_debug_views.specs.Reporting.{IsCut, Reports, ReportsPart};

use crate::sending::send;
use crate::way::{PathText, add_class, add_message, enter, enter_session};
use aom_cells::{CellId, MessageId, NULL};
use aom_clients::{Client, MessagePlace, NO_CELL};
use aom_debug_protocol::{DebugFault, Source};
use aom_debug_symbols::SourceNames;
use aom_machine_state::Parts;
use aom_transcript::Sink;

/// How many generations may hang from a place: an object that another owns is of a lower class, and a message owns nothing.
pub(crate) const GENERATIONS: usize = 257;

/// Writes the line of an object of a class.
fn report_owned<W: Sink>(
    way: &mut PathText,
    class: u16,
    names: &SourceNames,
    out: &mut W,
) -> Result<(), DebugFault>
    requires { length way.old + 34 ≤ 1536 }
    ensures same { way.new ≡ way.old }
    ensures ok { IfOk result (λ _. W.out out.new ≡ after (W.out out.old) (ended (way.old ++ codes " " ++ class_by names.now class))) }
    ensures err { IfErr result (λ fault. IsCut (ended (way.old ++ codes " " ++ class_by names.now class)) fault (W.failed out.new) (W.out out.old) (W.out out.new)) }
{
    let length = way.len();
    add_class(way, names, class);
    let done = send(way.as_bytes(), out);
    way.cut(length);
    done
}

/// Writes the line of a message.
fn report_sent<W: Sink>(
    way: &mut PathText,
    source: Source,
    names: &SourceNames,
    out: &mut W,
) -> Result<(), DebugFault>
    requires { length way.old + 40 ≤ 1536 }
    ensures same { way.new ≡ way.old }
    ensures ok { IfOk result (λ _. W.out out.new ≡ after (W.out out.old) (ended (way.old ++ codes " " ++ observer_by names.now source))) }
    ensures err { IfErr result (λ fault. IsCut (ended (way.old ++ codes " " ++ observer_by names.now source)) fault (W.failed out.new) (W.out out.old) (W.out out.new)) }
{
    let length = way.len();
    add_message(way, names, source);
    let done = send(way.as_bytes(), out);
    way.cut(length);
    done
}

/// Who sent what a message place has.
fn sender_of(place: MessagePlace) -> Option<Source>
    ensures { result ≡ sender_of place }
{
    match place {
        MessagePlace::Free => None,
        MessagePlace::Queued { client }
        | MessagePlace::Held { client }
        | MessagePlace::Discarded { client } => { Some(Source::Client(client)) }
    }
}

/// Who hears when the message of that number is completed, if there is one. The numbers of messages are those past the numbers of
/// cells.
pub(crate) fn source_at(parts: &Parts, number: u32) -> Option<Source>
    requires { (p : Image) × Stands (record { image = p; parts = parts.now }) }
    ensures { result ≡ source_at parts.now number }
{
    if number < 4096 || number >= 5120 {
        return None;
    }
    match parts.tokens.class(MessageId::numbered(number)) {
        Some(class) => Some(Source::Token(u16::from(class))),
        None => sender_of(parts.clients.place((number - 4096) as u16)),
    }
}

/// Writes the line of the message of that number, if there is one.
fn report_message<W: Sink>(
    parts: &Parts,
    way: &mut PathText,
    number: u32,
    names: &SourceNames,
    out: &mut W,
) -> Result<(), DebugFault>
    requires room { length way.old + 40 ≤ 1536 }
    requires stands { (p : Image) × Stands (record { image = p; parts = parts.now }) }
    ensures same { way.new ≡ way.old }
    ensures ok { IfOk result (λ _. W.out out.new ≡ after (W.out out.old) (message_text names.now way.old (source_at parts.now number))) }
    ensures err { IfErr result (λ fault. IsCut (message_text names.now way.old (source_at parts.now number)) fault (W.failed out.new) (W.out out.old) (W.out out.new)) }
{
    match source_at(parts, number) {
        Some(source) => report_sent(way, source, names, out),
        None => Ok(()),
    }
}

/// The client that has been connected longest to what lives there, if it is a server.
pub(crate) fn first_session(parts: &Parts, id: CellId) -> Option<u8>
    requires stands { (p : Image) × Stands (record { image = p; parts = parts.now }) }
    requires lives { Lives parts.now.cells id }
    ensures value { result ≡ first_client (sessions_at parts.now.clients id) }
    ensures below { IfSome result (λ c. c < 64) }
{
    parts.clients.first_session(id.number() as u16)
}

/// The client that was connected right after this one.
pub(crate) fn next_session(parts: &Parts, id: CellId, client: u8) -> Option<u8>
    requires { IsIn client (sessions_at parts.now.clients id) }
    ensures value { result ≡ client_after client (sessions_at parts.now.clients id) }
    ensures below { IfSome result (λ c. c < 64) }
{
    parts.clients.are_apart();
    parts.clients.next_session(id.number() as u16, client)
}

/// The number of the session of a client with the server of that number, and null where it has none there.
pub(crate) fn session_in(parts: &Parts, number: u32, client: u8) -> u32
    requires { client < 64 }
    ensures { result ≡ session_with number (client_at parts.now.clients client) }
{
    match parts.clients.client(client) {
        Client::Open {
            server,
            session,
            ..
        }
        | Client::Closing { server, session }
        | Client::Dying { server, session } => {
            if u32::from(server) == number && session != NO_CELL {
                u32::from(session)
            } else {
                NULL
            }
        }
        _ => NULL,
    }
}

/// The same of a server that lives.
pub(crate) fn session_number(parts: &Parts, id: CellId, client: u8) -> u32
    requires { client < 64 }
    ensures { result ≡ session_with id (client_at parts.now.clients client) }
{
    session_in(parts, id.number(), client)
}

/// Writes the line of what has that number, if it is one's, and so many generations of what hangs from it.
fn report_tree<W: Sink>(
    parts: &Parts,
    way: &mut PathText,
    number: u32,
    depth: usize,
    names: &SourceNames,
    out: &mut W,
) -> Result<(), DebugFault>
    requires room { length way.old + 5 * depth + 40 ≤ 1536 }
    requires stands { (p : Image) × Stands (record { image = p; parts = parts.now }) }
    ensures same { IfOk result (λ _. way.new ≡ way.old) }
    ensures ok { IfOk result (λ _. (p : Image) (w : WayRecord) (r : PlaceOf) → way.old ≡ way_text w → Shows (record { image = p; parts = parts.now }) number r → Reports (record { image = p; parts = parts.now }) (λ s. owners_text names.now (tree s.cells depth w (held s.cells r))) (W.out out.old) (W.out out.new)) }
    ensures err { IfErr result (λ fault. (p : Image) (w : WayRecord) (r : PlaceOf) → way.old ≡ way_text w → Shows (record { image = p; parts = parts.now }) number r → ReportsPart (record { image = p; parts = parts.now }) (λ s. owners_text names.now (tree s.cells depth w (held s.cells r))) fault (W.failed out.new) (W.out out.old) (W.out out.new)) }
{
    if depth == 0 {
        return Ok(());
    }
    let Some(id) = parts.cells.find(number) else {
        return report_message(parts, way, number, names, out);
    };
    report_owned(way, parts.cells.class(id), names, out)?;
    let length = way.len();
    for field in 0..8u8 {
        enter(way, field);
        report_tree(
            parts,
            way,
            parts.cells.field(id, field),
            depth - 1,
            names,
            out,
        )?;
        way.cut(length);
    }
    parts.clients.are_apart();
    let mut next = first_session(parts, id);
    while let Some(client) = next {
        enter_session(way, client);
        report_tree(
            parts,
            way,
            session_number(parts, id, client),
            depth - 1,
            names,
            out,
        )?;
        way.cut(length);
        next = next_session(parts, id, client);
    }
    Ok(())
}

/// Writes all that hangs from an outer place that has that number.
pub(crate) fn report_place<W: Sink>(
    parts: &Parts,
    mut way: PathText,
    number: u32,
    names: &SourceNames,
    out: &mut W,
) -> Result<(), DebugFault>
    requires short { length way ≤ 48 }
    requires stands { (p : Image) × Stands (record { image = p; parts = parts.now }) }
    ensures ok { IfOk result (λ _. (p : Image) (outer : Outer) (r : PlaceOf) → way ≡ outer_text outer → Shows (record { image = p; parts = parts.now }) number r → Reports (record { image = p; parts = parts.now }) (λ s. owners_text names.now (grown s.cells outer r)) (W.out out.old) (W.out out.new)) }
    ensures err { IfErr result (λ fault. (p : Image) (outer : Outer) (r : PlaceOf) → way ≡ outer_text outer → Shows (record { image = p; parts = parts.now }) number r → ReportsPart (record { image = p; parts = parts.now }) (λ s. owners_text names.now (grown s.cells outer r)) fault (W.failed out.new) (W.out out.old) (W.out out.new)) }
{
    report_tree(parts, &mut way, number, GENERATIONS, names, out)
}
