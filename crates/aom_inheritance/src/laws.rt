//! The laws, each as the contract of a function that does nothing.
ghost use Rattle.aom_inheritance.specs.Laws.{BodiesAreAlike, DescendingIsAnOrder, FamiliesInherit, PlainImagesStay, WeightsFall};

/// A class descends from itself, and from what those that it descends from do.
pub fn descending_is_an_order()
    ensures { DescendingIsAnOrder }
{}

/// A class has the kind, the words and the fields of those that it descends from, and their roles.
pub fn families_inherit()
    ensures { FamiliesInherit }
{}

/// What a call runs takes and gives what the named method does, and asks and promises no less.
pub fn bodies_are_alike()
    ensures { BodiesAreAlike }
{}

/// What an object owns weighs less than it, also where its class has a higher number.
pub fn weights_fall()
    ensures { WeightsFall }
{}

/// Where no class has a parent and no method overrides, each class is alone and each method runs itself.
pub fn plain_images_stay()
    ensures { PlainImagesStay }
{}
