//! The bytes of images: their grammar, and the way in and out.
#![tactic(auto)]

mod class_reader;
mod decoding;
mod encoding;
mod fault;
mod header;
mod method_reader;
mod operand_reader;
mod reader;
mod round_trip;

pub use decoding::decode;
pub use encoding::encode;
pub use fault::LoadFault;
pub use round_trip::serialization_and_reading;
