//! The way to an object, as the map of owners tells it.
ghost use Rattle.std.specs.Prelude.{◌≡◌, ◌<◌, ◌≤◌, ◌+◌, ◌*◌, false, length, option_map};
ghost use Rattle.aom_cells.specs.Heap.{Lives};
ghost use Rattle.aom_machine.specs.Agreement.{AgreesInAll};
ghost use Rattle.aom_image.specs.Image.{Image};
ghost use Rattle.aom_machine_state.specs.Stands.{Stands, Refines};
ghost use Rattle.aom_semantics.specs.Places.{Place as PlaceOf, held};
ghost use Rattle.aom_semantics.specs.State.{State};
ghost use Rattle.aom_debug_views.specs.Owners.{Outer, Shows, Way as WayRecord, frame_registers, grown, outer_text, owners, tree, way_text};
ghost use Rattle.aom_debug_views.specs.SeriesMaps.{hangs_in, places_in, series_map};
ghost use Rattle.aom_debug_views.specs.Seeking.{text_if, way_among, way_in};

use crate::Series;
use crate::holding::register_number;
use crate::owners::{going_number, item_number};
use crate::tree::{GENERATIONS, first_session, next_session, session_number};
use crate::way::{self, PathText, enter, enter_session};
use aom_budget::Accepted;
use aom_cells::CellId;
use aom_instructions::Register;
use aom_machine_state::Parts;
use aom_verify::Checked;

/// Goes on to the object that is sought, if it is what has that number or hangs from that within so many generations. Answers whether it is
/// found; the way is as it was where it is not.
fn seek_tree(parts: &Parts, way: &mut PathText, number: u32, depth: usize, sought: CellId) -> bool
    requires room { length way.old + 5 * depth + 40 ≤ 1536 }
    requires stands { (p : Image) × Stands (record { image = p; parts = parts.now }) }
    requires lives { Lives parts.now.cells sought }
    ensures same { result ≡ false → way.new ≡ way.old }
    ensures found { (p : Image) (w : WayRecord) (r : PlaceOf) → way.old ≡ way_text w → Shows (record { image = p; parts = parts.now }) number r → (s : State) → Refines (record { image = p; parts = parts.now }) s → text_if result way.new ≡ option_map way_text (way_among sought (tree s.cells depth w (held s.cells r))) }
{
    if depth == 0 {
        return false;
    }
    if number == sought.number() {
        return true;
    }
    let Some(id) = parts.cells.find(number) else {
        return false;
    };
    let length = way.len();
    for field in 0..8u8 {
        enter(way, field);
        if seek_tree(parts, way, parts.cells.field(id, field), depth - 1, sought) {
            return true;
        }
        way.cut(length);
    }
    parts.clients.are_apart();
    let mut next = first_session(parts, id);
    while let Some(client) = next {
        enter_session(way, client);
        if seek_tree(
            parts,
            way,
            session_number(parts, id, client),
            depth - 1,
            sought,
        ) {
            return true;
        }
        way.cut(length);
        next = next_session(parts, id, client);
    }
    false
}

/// The way to it, if it hangs from an outer place that has that number.
fn seek_place(parts: &Parts, mut way: PathText, number: u32, sought: CellId) -> Option<PathText>
    requires short { length way ≤ 48 }
    requires stands { (p : Image) × Stands (record { image = p; parts = parts.now }) }
    requires lives { Lives parts.now.cells sought }
    ensures { (p : Image) (outer : Outer) (r : PlaceOf) → way ≡ outer_text outer → Shows (record { image = p; parts = parts.now }) number r → (s : State) → Refines (record { image = p; parts = parts.now }) s → result ≡ option_map way_text (way_among sought (grown s.cells outer r)) }
{
    if seek_tree(parts, &mut way, number, GENERATIONS, sought) {
        Some(way)
    } else {
        None
    }
}

/// The way to it, if it hangs from a register of the task over so many others, over so many frames.
fn seek_task(
    parts: &Parts,
    checked: &Checked,
    depth: usize,
    frames: usize,
    sought: CellId,
) -> Option<PathText>
    requires stands { Stands (record { image = checked.now; parts = parts.now }) }
    requires agrees { AgreesInAll (record { image = checked.now; parts = parts.now }) }
    requires lives { Lives parts.now.cells sought }
    ensures { (s : State) → Refines (record { image = checked.now; parts = parts.now }) s → result ≡ option_map way_text (way_among sought (frame_registers s.cells depth frames 16)) }
{
    for register in 0..16u8 {
        let at = Register::new(register).unwrap();
        let number = register_number(parts, checked, depth, at);
        let found = seek_place(parts, way::register(frames, register), number, sought);
        if found.is_some() {
            return found;
        }
    }
    None
}

/// The way to it, if it hangs from a place of a series, over so many others of that.
fn seek_at(
    parts: &Parts,
    checked: &Checked,
    series: Series,
    others: usize,
    place: usize,
    sought: CellId,
) -> Option<PathText>
    requires within { place < places_in series parts.now }
    requires stands { Stands (record { image = checked.now; parts = parts.now }) }
    requires agrees { AgreesInAll (record { image = checked.now; parts = parts.now }) }
    requires lives { Lives parts.now.cells sought }
    ensures { (s : State) → Refines (record { image = checked.now; parts = parts.now }) s → result ≡ option_map way_text (way_among sought (hangs_in series s others place)) }
{
    match series {
        Series::Frames => seek_task(parts, checked, place, others, sought),
        Series::Entries => {
            let number = item_number(parts, place);
            seek_place(parts, way::entry(others), number, sought)
        }
        Series::Goings => {
            let number = going_number(parts, place);
            seek_place(parts, way::going(others), number, sought)
        }
    }
}

/// The way to it, if it hangs from a place of a series.
fn seek_series(parts: &Parts, checked: &Checked, series: Series, sought: CellId) -> Option<PathText>
    requires stands { Stands (record { image = checked.now; parts = parts.now }) }
    requires agrees { AgreesInAll (record { image = checked.now; parts = parts.now }) }
    requires lives { Lives parts.now.cells sought }
    ensures { (s : State) → Refines (record { image = checked.now; parts = parts.now }) s → result ≡ option_map way_text (way_among sought (series_map series s)) }
{
    let mut others = 0;
    for place in 0..series.places(parts) {
        let found = seek_at(parts, checked, series, others, place, sought);
        if found.is_some() {
            return found;
        }
        others += series.count_at(parts, place);
    }
    None
}

/// The way to it, wherever it hangs.
fn seek_all(parts: &Parts, checked: &Checked, sought: CellId) -> Option<PathText>
    requires stands { Stands (record { image = checked.now; parts = parts.now }) }
    requires agrees { AgreesInAll (record { image = checked.now; parts = parts.now }) }
    requires lives { Lives parts.now.cells sought }
    ensures { (s : State) → Refines (record { image = checked.now; parts = parts.now }) s → result ≡ option_map way_text (way_among sought (owners s)) }
{
    let root = seek_place(parts, way::root(), parts.root, sought);
    if root.is_some() {
        return root;
    }
    let register = seek_series(parts, checked, Series::Frames, sought);
    if register.is_some() {
        return register;
    }
    let entry = seek_series(parts, checked, Series::Entries, sought);
    if entry.is_some() {
        return entry;
    }
    let service = seek_place(parts, way::service(), parts.served, sought);
    if service.is_some() {
        return service;
    }
    seek_series(parts, checked, Series::Goings, sought)
}

/// The way to the object of that number, if one lives.
pub fn path_to(parts: &Parts, accepted: &Accepted, number: u32) -> Option<PathText>
    requires stands { Stands (record { image = accepted.now; parts = parts.now }) }
    requires agrees { AgreesInAll (record { image = accepted.now; parts = parts.now }) }
    ensures { (s : State) → Refines (record { image = accepted.now; parts = parts.now }) s → result ≡ option_map way_text (way_in s number) }
{
    match parts.cells.find(number) {
        Some(cell) => seek_all(parts, accepted.checked(), cell),
        None => None,
    }
}
