//! The grammar: what a part is made of.
ghost use Rattle.std.specs.Prelude.{◌≡◌, option_map};
ghost use Rattle.aom_source_syntax.specs.Grammar.{rule};

use crate::declarations::declaration_production;
use crate::expressions::expression_production;
use crate::members::member_production;
use crate::names::name_production;
use crate::statements::statement_production;
use crate::symbol::{Class, Part, Symbols};

/// The symbols of a part that begins with a token of the class `here`, before one of the class `next`.
pub fn production(part: Part, here: Class, next: Class) -> Option<Symbols>
    ensures { option_map (λ s. s.now) result ≡ rule part here next }
{
    match part {
        Part::Declaration(part) => declaration_production(part, here),
        Part::Member(part) => member_production(part, here),
        Part::Statement(part) => statement_production(part, here, next),
        Part::Expression(part) => expression_production(part, here, next),
        Part::Name(part) => name_production(part),
    }
}
