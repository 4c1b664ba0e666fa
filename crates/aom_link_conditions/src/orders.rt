//! The least numbers that a method may have, for what it mentions, cancels and calls.
ghost use Rattle.std.specs.Prelude.{◌≡◌, ◌≤◌, ◌<◌, ◌↔◌, ℕ, IfSome, IsTrue, length, slice_get};
ghost use Rattle.aom_image.specs.Image.{Image as ImageRecord};
ghost use Rattle.aom_link_conditions.specs.Calls.{AllBelow, CancelsBelow, EndsBelow, GoesBelow, Mentions, MayCancel, OverridersBelow};
ghost use Rattle.aom_link_conditions.specs.Orders.{AreLeast, IsLeast, IsOrders, ReachesAll};

use crate::chains::{ByMethod, all_alike, put_overridden};
use crate::needs::class_number;
use crate::roles::fills_role;
use aom_image::{ClassNumber, Image, Method, MethodNumber, Role};
use aom_roles::{descends, parent_of, sessions_at};
use arrayvec::ArrayVec;

/// A number for each class.
type ByClass = ArrayVec<usize, 256>;

/// The least number of a method that mentions each class, that cancels in it, and that calls each method, made once for
/// all that ask.
#[derive(Drop)]
pub struct Orders {
    pub mentions: ByClass,
    pub cancels: ByClass,
    pub calls: ByMethod,
}

/// The least number above all methods of that class with that role.
fn above_role(methods: &[Method], class: ClassNumber, role: Role) -> usize
    ensures { IsLeast result (λ m. AllBelow methods.now m class role) }
{
    let mut above = 0;
    for (number, method) in methods.iter().enumerate() {
        if fills_role(class, role, method) {
            above = number + 1;
        }
    }
    above
}

fn above_own(image: &Image, class: ClassNumber, role: Role) -> usize
    ensures { IsLeast result (λ m. AllBelow image.now.methods m class role) }
{
    above_role(image.methods().as_slice(), class, role)
}

/// Above the destructors of a class and of those that it descends from, which come before it in the table.
fn going(image: &Image, lines: &[usize], class: ClassNumber) -> usize
    requires { AreLeast class lines.now (λ c m. GoesBelow image.now m c) }
    ensures { IsLeast result (λ m. GoesBelow image.now m class) }
{
    let own = above_own(image, class, Role::Destruct);
    match parent_of(image, class) {
        Some(parent) => own.max(lines[parent.number() as usize]),
        None => own,
    }
}

/// Above the cancel methods that a class has, its own or those of the nearest class above it.
fn cancelling(image: &Image, lines: &[usize], class: ClassNumber) -> usize
    requires { AreLeast class lines.now (λ c m. CancelsBelow image.now m c) }
    ensures { IsLeast result (λ m. CancelsBelow image.now m class) }
{
    let own = above_own(image, class, Role::Cancel);
    if own > 0 {
        return own;
    }
    match parent_of(image, class) {
        Some(parent) => lines[parent.number() as usize],
        None => 0,
    }
}

fn lines_going(image: &Image) -> ByClass
    ensures { AreLeast 256 result.items (λ c m. GoesBelow image.now m c) }
{
    let mut lines = ByClass::new();
    for class in 0..256 {
        lines.push(going(image, lines.as_slice(), class_number(class)));
    }
    lines
}

fn lines_cancelling(image: &Image) -> ByClass
    ensures { AreLeast 256 result.items (λ c m. CancelsBelow image.now m c) }
{
    let mut lines = ByClass::new();
    for class in 0..256 {
        lines.push(cancelling(image, lines.as_slice(), class_number(class)));
    }
    lines
}

/// Above what runs as an object of the class goes, with its sessions.
fn ending(image: &Image, lines: &[usize], class: ClassNumber) -> usize
    requires { AreLeast 256 lines.now (λ c m. GoesBelow image.now m c) }
    ensures { IsLeast result (λ m. EndsBelow image.now m class) }
{
    let own = lines[class.number() as usize];
    match sessions_at(image, class) {
        Some(sessions) => own.max(lines[sessions.number() as usize]),
        None => own,
    }
}

fn endings(image: &Image, lines: &[usize]) -> ByClass
    requires { AreLeast 256 lines.now (λ c m. GoesBelow image.now m c) }
    ensures { AreLeast 256 result.items (λ c m. EndsBelow image.now m c) }
{
    let mut ends = ByClass::new();
    for class in 0..256 {
        ends.push(ending(image, lines, class_number(class)));
    }
    ends
}

/// The greatest number of the class and of all that descend from it.
fn greatest(image: &Image, table: &[usize], class: ClassNumber) -> usize
    requires { length table.now ≡ 256 }
    ensures { IsLeast result (ReachesAll image.now table.now class) }
{
    let mut most = table[class.number() as usize];
    for other in 0..image.classes().len() {
        if descends(image, class_number(other), class) {
            most = most.max(table[other]);
        }
    }
    most
}

fn greatest_each(image: &Image, table: &[usize]) -> ByClass
    requires { length table.now ≡ 256 }
    ensures few { length image.now.classes ≤ 256 }
    ensures most { AreLeast 256 result.items (λ c m. ReachesAll image.now table.now c m) }
{
    let _classes = image.classes();
    let mut most = ByClass::new();
    for class in 0..256 {
        most.push(greatest(image, table, class_number(class)));
    }
    most
}

/// Above all methods that override each method.
fn above_overriders_each(image: &Image) -> ByMethod
    ensures { AreLeast 1024 result.items (λ k m. OverridersBelow image.now m k) }
{
    let mut calls = all_alike(0);
    let methods = image.methods();
    for (number, method) in methods.as_slice().iter().enumerate() {
        put_overridden(image, &mut calls, method.over, number + 1);
    }
    calls
}

fn mentions_of(image: &Image) -> ByClass
    ensures { AreLeast 256 result.items (λ c m. Mentions image.now m c) }
{
    let lines = lines_going(image);
    let ends = endings(image, lines.as_slice());
    greatest_each(image, ends.as_slice())
}

fn cancels_of(image: &Image) -> ByClass
    ensures { AreLeast 256 result.items (λ c m. MayCancel image.now m c) }
{
    let lines = lines_cancelling(image);
    greatest_each(image, lines.as_slice())
}

impl Orders {
    /// The tables of an image.
    pub fn of_image(image: &Image) -> Orders
        ensures { IsOrders image.now result }
    {
        Orders {
            mentions: mentions_of(image),
            cancels: cancels_of(image),
            calls: above_overriders_each(image),
        }
    }

    /// Whether a method may mention a class.
    pub fn may_mention(&self, method: usize, class: ClassNumber) -> bool
        requires { length self.now.mentions.items ≡ 256 }
        ensures { (p : ImageRecord) → IsOrders p self.now → IsTrue result ↔ Mentions p method class }
    {
        self.mentions[class.number() as usize] <= method
    }

    /// Whether a method may cancel in a class.
    pub fn may_cancel(&self, method: usize, class: ClassNumber) -> bool
        requires { length self.now.cancels.items ≡ 256 }
        ensures { (p : ImageRecord) → IsOrders p self.now → IsTrue result ↔ MayCancel p method class }
    {
        self.cancels[class.number() as usize] <= method
    }

    /// Whether a method comes after all that override that one.
    pub fn may_call(&self, method: usize, called: MethodNumber) -> bool
        requires { length self.now.calls.items ≡ 1024 }
        ensures { (p : ImageRecord) → IsOrders p self.now → IsTrue result ↔ OverridersBelow p method called }
    {
        self.calls[called.number() as usize] <= method
    }
}
