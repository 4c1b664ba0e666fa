//! The way in: bytes that spell an image.
ghost use Rattle.std.specs.Prelude.{◌≡◌, ◌≢◌, Some, IfOk, IfErr};
ghost use Rattle.aom_image.specs.Image.{Image as ImageRecord};
ghost use Rattle.aom_codec.specs.Serialization.{serialize};
ghost use Rattle.aom_image.specs.WellFormed.{WellFormed};
ghost use Rattle.aom_codec.specs.Format.{image as image_format, read_image, first_fault};
ghost use Rattle.aom_codec.specs.Reads.{ReadsOrNoMemory, DecodesTo};
ghost use Rattle.aom_codec.specs.declared.fault.LoadFault.TheVariants.{OutOfMemory as NoMemory};

use crate::LoadFault;
use crate::reader::ByteReader;
use aom_image::{ClassDecl, Header, Image, Method};
use std::alloc::Global;

/// The parts of an image.
#[derive(Drop)]
struct ImageParts {
    header: Header,
    classes: Vec<ClassDecl>,
    methods: Vec<Method>,
}

/// The image that the bytes spell, all of the bytes.
pub fn decode(alloc: Global, bytes: &[u8]) -> Result<Image, LoadFault>
    // What is read is spelled so.
    ensures found { IfOk result (λ i. WellFormed i × (bytes.now ≡ serialize i)) }
    // What is spelled so is read, unless memory runs out.
    ensures only { (i : ImageRecord) → WellFormed i → bytes.now ≡ serialize i → DecodesTo i result }
    ensures fault { IfErr result (λ e. e ≢ NoMemory → first_fault bytes.now ≡ Some e) }
{
    let parts = parts_of(alloc, bytes)?;
    Ok(Image::make(parts.header, parts.classes, parts.methods))
}

fn read_parts(alloc: Global, reader: &mut ByteReader<'_>) -> Result<ImageParts, LoadFault>
    ensures { ReadsOrNoMemory (λ p. (record { header = p.header; classes = p.classes.items; methods = p.methods.items }, reader.new)) result (image_format.read reader.old) }
{
    let opening = reader.opening()?;
    let version = opening.header.version;
    let classes = reader.classes(alloc, version, opening.classes, opening.header.natives)?;
    let methods = reader.methods(alloc, version, opening.methods, opening.classes)?;
    Ok(ImageParts {
        header: opening.header,
        classes,
        methods,
    })
}

fn parts_of(alloc: Global, bytes: &[u8]) -> Result<ImageParts, LoadFault>
    ensures { ReadsOrNoMemory (λ p. record { header = p.header; classes = p.classes.items; methods = p.methods.items }) result (read_image bytes.now) }
{
    if bytes.len() > 1 << 20 {
        return Err(LoadFault::LimitPassed);
    }
    let mut reader = ByteReader::new(bytes);
    let parts = read_parts(alloc, &mut reader)?;
    if !reader.is_empty() {
        return Err(LoadFault::Trailing);
    }
    Ok(parts)
}
