//! What all methods keep within.
ghost use Rattle.std.specs.Prelude.{◌≡◌, ◌<◌, length};
ghost use Rattle.aom_cost_report.specs.Text.{most_below};

use aom_budget::Figures;
use aom_image::MethodNumber;
use aom_linker::Linked;

/// The number of the method at an index.
pub fn method_number(index: usize) -> MethodNumber
    requires { index < 1024 }
    ensures { result ≡ index }
{
    MethodNumber::new(index as u16).unwrap()
}

/// The most that a method may come to.
#[derive(Clone, Copy)]
pub(crate) struct Most {
    pub(crate) frames: u16,
    pub(crate) entries: u16,
}

/// The most frames and the most cleanup entries of all methods.
pub(crate) fn most_of(linked: &Linked, figures: &Figures) -> Most
    ensures frames { result.frames ≡ most_below figures.now.depths (length linked.now.methods) }
    ensures entries { result.entries ≡ most_below figures.now.heights (length linked.now.methods) }
{
    let mut most = Most {
        frames: 0,
        entries: 0,
    };
    let methods = linked.image().methods();
    for index in 0..methods.len() {
        let method = method_number(index);
        most.frames = figures.frames(method).max(most.frames);
        most.entries = figures.entries(method).max(most.entries);
    }
    most
}
