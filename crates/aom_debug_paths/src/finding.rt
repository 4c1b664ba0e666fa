//! The places that are in no object, by their numbers from the bottom.
ghost use Rattle.std.specs.Prelude.{◌≡◌, ◌==◌, ◌&&◌, IfSome, option_map};
ghost use Rattle.aom_image.specs.Image.{Image};
ghost use Rattle.aom_machine_state.specs.Stands.{Refines};
ghost use Rattle.aom_semantics.specs.Places.{Entry as At_entry, Going as Goes, Register as In_register_of};
ghost use Rattle.aom_semantics.specs.State.{State};
ghost use Rattle.aom_debug_views.specs.Holdings.{IsOwner, place_of};
ghost use Rattle.aom_debug_paths.specs.Paths.{outer_place, place_in};

use aom_debug_protocol::Outer;
use aom_debug_views::{Owner, Series};
use aom_instructions::Register;
use aom_machine_state::Parts;

/// Whether one is here that is over so many others as the number says.
fn is_meant(here: usize, others: usize, number: u16) -> bool
    ensures { result ≡ (here == 1 && others == number) }
{
    here == 1 && others == usize::from(number)
}

/// The place of the one over so many others.
fn numbered_place(parts: &Parts, series: Series, number: u16) -> Option<usize>
    ensures { (p : Image) (s : State) → Refines (record { image = p; parts = parts.now }) s → result ≡ place_in series s number }
{
    let mut others = 0;
    for place in 0..series.places(parts) {
        let here = series.count_at(parts, place);
        if is_meant(here, others, number) {
            return Some(place);
        }
        others += here;
    }
    None
}

fn register_owner(depth: Option<usize>, register: Register) -> Option<Owner>
    ensures place { option_map (λ x. place_of x) result ≡ option_map (λ d. In_register_of d register) depth }
    ensures owner { IfSome result (λ x. IsOwner x) }
{
    match depth {
        Some(depth) => Some(Owner::Register { depth, register }),
        None => None,
    }
}

fn entry_owner(height: Option<usize>) -> Option<Owner>
    ensures place { option_map (λ x. place_of x) result ≡ option_map (λ h. At_entry h) height }
    ensures owner { IfSome result (λ x. IsOwner x) }
{
    match height {
        Some(height) => Some(Owner::Entry(height)),
        None => None,
    }
}

fn going_owner(depth: Option<usize>) -> Option<Owner>
    ensures place { option_map (λ x. place_of x) result ≡ option_map (λ d. Goes d) depth }
    ensures owner { IfSome result (λ x. IsOwner x) }
{
    match depth {
        Some(depth) => Some(Owner::Going(depth)),
        None => None,
    }
}

/// The place that is meant, if there is one.
pub(crate) fn outer_owner(parts: &Parts, outer: Outer) -> Option<Owner>
    ensures place { (p : Image) (s : State) → Refines (record { image = p; parts = parts.now }) s → option_map (λ x. place_of x) result ≡ outer_place s outer }
    ensures owner { IfSome result (λ x. IsOwner x) }
{
    match outer {
        Outer::Root => Some(Owner::Root),
        Outer::Register(frame, register) => register_owner(
            numbered_place(parts, Series::Frames, frame),
            register,
        ),
        Outer::Entry(entry) => entry_owner(numbered_place(parts, Series::Entries, entry)),
        Outer::Service => Some(Owner::Service),
        Outer::Going(going) => going_owner(numbered_place(parts, Series::Goings, going)),
    }
}
