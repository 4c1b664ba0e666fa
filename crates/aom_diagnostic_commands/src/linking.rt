//! Where an image fails a link condition.
ghost use Rattle.std.specs.Prelude.{OnOk};
ghost use Rattle.aom_image.specs.Image.{Image as ImageRecord};
ghost use Rattle.aom_diagnostics.specs.Linking.{link_source, link_text};
ghost use Rattle.aom_commands.specs.Acceptable.{IsSerialized};
ghost use Rattle.aom_diagnostic_commands.specs.Linking.{AddsLink, AddsLinkSource, ReportsPlace};

use crate::with_text::ImageText;
use aom_codec::decode;
use aom_cost_report::FigureWriter;
use aom_diagnostics::{write_link_place, write_link_source};
use aom_image::Image;
use aom_link_conditions::{LinkFault, link_place};
use std::alloc::{AllocError, Global};

fn write_listed(
    alloc: Global,
    out: &mut FigureWriter,
    image: &Image,
    fault: LinkFault,
) -> Result<(), AllocError>
    ensures { OnOk result (ReportsPlace image.now fault (link_text image.now) out.old out.new) }
{
    match link_place(image, fault) {
        Some(place) => write_link_place(alloc, out, image, place),
        None => Ok(()),
    }
}

/// Writes what the listing of an image says of that place.
pub fn write_link(
    alloc: Global,
    out: &mut FigureWriter,
    image: &[u8],
    fault: LinkFault,
) -> Result<(), AllocError>
    ensures { OnOk result (AddsLink image.now fault out.old out.new) }
{
    match decode(alloc, image) {
        Ok(image) => write_listed(alloc, out, &image, fault),
        Err(_) => Err(AllocError),
    }
}

fn write_stated(
    out: &mut FigureWriter,
    image: &Image,
    text: &ImageText,
    fault: LinkFault,
) -> Result<(), AllocError>
    ensures { OnOk result (ReportsPlace image.now fault (link_source text.now) out.old out.new) }
{
    match link_place(image, fault) {
        Some(place) => write_link_source(out, text.bytes(), place),
        None => Ok(()),
    }
}

/// Writes where the text that the image is of has that place.
pub fn write_link_beside(
    alloc: Global,
    out: &mut FigureWriter,
    image: &[u8],
    text: &ImageText,
    fault: LinkFault,
) -> Result<(), AllocError>
    ensures { OnOk result (AddsLinkSource image.now text.now fault out.old out.new) }
{
    match decode(alloc, image) {
        Ok(image) => write_stated(out, &image, text, fault),
        Err(_) => Err(AllocError),
    }
}
