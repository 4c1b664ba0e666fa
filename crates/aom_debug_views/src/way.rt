//! The way to an object, as its line begins.
ghost use Rattle.std.specs.Prelude.{◌≡◌, ◌≤◌, ◌<◌, ◌+◌, ◌++◌, codes, decimal, length, take};
ghost use Rattle.aom_transcript.specs.Text.{ended};
ghost use Rattle.aom_debug_symbols.specs.NameLists.{class_by};
ghost use Rattle.aom_debug_symbols.specs.Answers.{observer_by};
ghost use Rattle.aom_debug_views.specs.Owners.{branch_text, outer_text};
ghost use Rattle.aom_debug_views.specs.Owners.{At_root, At_service, By_field, By_session, In_entry, In_going, In_register};

use aom_debug_protocol::Source;
use aom_debug_symbols::{SourceNames, add_class_name};
use aom_transcript::Text;

/// An outer place takes at most 48 bytes, each of 257 fields or sessions at most 5, and what is there at most 40.
const LONGEST: usize = 1536;

/// The text of a way, with room for any.
pub type PathText = Text<LONGEST>;

/// The root.
pub(crate) fn root() -> PathText
    ensures text { result ≡ outer_text At_root }
    ensures short { length result ≤ 48 }
{
    plain(b"root")
}

/// A register of the frame over so many others.
pub(crate) fn register(frames: usize, register: u8) -> PathText
    ensures text { result ≡ outer_text (In_register frames register) }
    ensures short { length result ≤ 48 }
{
    let mut way = numbered(b"reg ", frames);
    way.add_count(b" r", register);
    way
}

/// The cleanup entry over so many others.
pub(crate) fn entry(entries: usize) -> PathText
    ensures text { result ≡ outer_text (In_entry entries) }
    ensures short { length result ≤ 48 }
{
    numbered(b"clean ", entries)
}

/// The destruction over so many others.
pub(crate) fn going(goings: usize) -> PathText
    ensures text { result ≡ outer_text (In_going goings) }
    ensures short { length result ≤ 48 }
{
    numbered(b"going ", goings)
}

/// The message that is served.
pub(crate) fn service() -> PathText
    ensures text { result ≡ outer_text At_service }
    ensures short { length result ≤ 48 }
{
    plain(b"service")
}

fn plain(words: &[u8]) -> PathText
    requires { length words.now ≤ 8 }
    ensures { result ≡ words.now }
{
    let mut way = PathText::new();
    way.add(words);
    way
}

fn numbered(words: &[u8], number: usize) -> PathText
    requires { length words.now ≤ 8 }
    ensures text { result ≡ words.now ++ decimal number }
    ensures short { length result ≤ length words.now + 20 }
{
    let mut way = PathText::new();
    way.add_count(words, number);
    way
}

/// On to a field.
pub(crate) fn enter(way: &mut PathText, field: u8)
    requires { length way.old + 7 ≤ 1536 }
    ensures text { way.new ≡ way.old ++ branch_text (By_field field) }
    ensures short { length way.new ≤ length way.old + 5 }
{
    way.add_count(b".f", field);
}

/// On to the session of a client.
pub(crate) fn enter_session(way: &mut PathText, client: u8)
    requires { length way.old + 7 ≤ 1536 }
    ensures text { way.new ≡ way.old ++ branch_text (By_session client) }
    ensures short { length way.new ≤ length way.old + 5 }
{
    way.add_count(b".s", client);
}

/// Who hears when the message that is there is completed, behind the way, and the end of its line.
pub(crate) fn add_message(way: &mut PathText, names: &SourceNames, source: Source)
    requires { length way.old + 40 ≤ 1536 }
    ensures { way.new ≡ ended (way.old ++ codes " " ++ observer_by names.now source) }
{
    match source {
        Source::Client(client) => way.add_count(b" msg ", client),
        Source::Token(class) => {
            way.add(b" token ");
            add_class_name(way, names, class);
        }
    }
    way.add(b"\n");
}

/// The class of what is there, behind the way, and the end of its line.
pub(crate) fn add_class(way: &mut PathText, names: &SourceNames, class: u16)
    requires { length way.old + 34 ≤ 1536 }
    ensures { way.new ≡ ended (way.old ++ codes " " ++ class_by names.now class) }
{
    way.add(b" ");
    add_class_name(way, names, class);
    way.add(b"\n");
}
