//! The roles of methods.
ghost use Rattle.std.specs.Prelude.{◌≡◌};
ghost use Rattle.aom_roles.specs.Roles.{same_role};

use aom_image::Role;

pub fn same_role(one: Role, other: Role) -> bool
    ensures { result ≡ same_role one other }
{
    one.number() == other.number()
}
