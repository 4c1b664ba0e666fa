//! A whole image.
ghost use Rattle.std.specs.Prelude.{◌≡◌};

use crate::{ClassDecl, ClassNumber, Items, Method, Version};
use std::marker::Model;

/// What an image says of the whole program.
#[derive(Clone, Copy)]
pub struct Header {
    pub version: Version,
    /// How many cells may live at once, at most 4,096.
    pub cells: u16,
    /// How many messages may live at once, at most 1,024.
    pub messages: u16,
    /// How many natives the image names, at most 16.
    pub natives: u8,
    /// The class of the root object.
    pub root: Option<ClassNumber>,
    /// The budget of main's dispatch, in instructions.
    pub budget: u32,
}

/// A well-formed image.
#[derive(Drop)]
pub struct Image {
    header: Header,
    classes: Items<ClassDecl>,
    methods: Items<Method>,
}

impl Model for Image {
    ghost use Rattle.aom_image.specs.Image.{Image as ImageRecord};
    ghost use Rattle.aom_image.specs.WellFormed.{WellFormed};

    ghost Value = { ImageRecord };

    ghost view = { λ i. record { header = i.header; classes = i.classes; methods = i.methods } };

    ghost invariant = { λ i. WellFormed (record { header = i.header; classes = i.classes; methods = i.methods }) };
}

impl Image {
    ghost use Rattle.aom_image.specs.WellFormed.{WellFormed};

    /// The image of these parts. Whether they make one, `form_ok` tells.
    pub fn make(header: Header, classes: Vec<ClassDecl>, methods: Vec<Method>) -> Image
        requires { WellFormed (record { header = header; classes = classes.items; methods = methods.items }) }
        ensures { result ≡ record { header = header; classes = classes.items; methods = methods.items } }
    {
        Image {
            header,
            classes: Items::from_vec(classes),
            methods: Items::from_vec(methods),
        }
    }

    pub fn header(&self) -> &Header
        ensures value { result.now ≡ self.now.header }
        ensures well_formed { WellFormed self.now }
    {
        &self.header
    }

    pub fn classes(&self) -> &Items<ClassDecl>
        ensures value { result.now ≡ self.now.classes }
        ensures well_formed { WellFormed self.now }
    {
        &self.classes
    }

    pub fn methods(&self) -> &Items<Method>
        ensures value { result.now ≡ self.now.methods }
        ensures well_formed { WellFormed self.now }
    {
        &self.methods
    }
}
