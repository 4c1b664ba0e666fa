//! The rules of instructions on words, of jumps and of loops.
ghost use Rattle.std.specs.Prelude.{◌≡◌, []};
ghost use Rattle.aom_typing_rules.specs.Finding.{Finds};
ghost use Rattle.aom_typing_rules.specs.Ways.{As_before, Branches, Goes_back, Goes_on, Goes_to, Holding};
ghost use Rattle.aom_typing_rules.specs.Words.{flow_word, rule_combine, rule_compare, rule_const, rule_copy, rule_load, rule_print, rule_store};
ghost use Rattle.aom_abstract_state.specs.Changes.{ways_from};
ghost use Rattle.aom_abstract_state.specs.declared.kind.Kind.TheVariants.{Word};

use crate::rules::Ruling;
use aom_abstract_state::{Flow, Kind, judge};
use aom_image::{InstrPlace, Register, WordIndex};
use aom_rule_context::RuleContext;

/// A word comes into the register.
pub(crate) fn with_word(site: &RuleContext<'_>, a: Register) -> Flow
    ensures { ways_from site.now.shape.entries result ≡ flow_word site.now.place site.now.shape a }
{
    site.next(&site.shape.with_register(a, Kind::Word))
}

pub(crate) fn rule_const(site: &RuleContext<'_>, a: Register) -> Ruling
    ensures { Finds site.now (rule_const site.now.place site.now.shape a) (Goes_on (Holding a Word)) result }
{
    judge(&[site.needs_unowning(a)], with_word(site, a))
}

pub(crate) fn rule_copy(site: &RuleContext<'_>, a: Register, b: Register) -> Ruling
    ensures { Finds site.now (rule_copy site.now.place site.now.shape a b) (Goes_on (Holding a Word)) result }
{
    let needs = [site.needs_word(b), site.needs_unowning(a)];
    judge(&needs, with_word(site, a))
}

/// The rule of the six operations on two words.
pub(crate) fn rule_combine(site: &RuleContext<'_>, a: Register, b: Register, c: Register) -> Ruling
    ensures { Finds site.now (rule_combine site.now.place site.now.shape a b c) (Goes_on (Holding a Word)) result }
{
    let needs = [
        site.needs_word(b),
        site.needs_word(c),
        site.needs_unowning(a),
    ];
    judge(&needs, with_word(site, a))
}

pub(crate) fn rule_jump(site: &RuleContext<'_>, to: InstrPlace) -> Ruling
    ensures { Finds site.now [] (Goes_to to) result }
{
    judge(&[], Flow::to(to.number() as usize, site.shape))
}

/// The rule of the two jumps that compare words.
pub(crate) fn rule_compare(
    site: &RuleContext<'_>,
    a: Register,
    b: Register,
    to: InstrPlace,
) -> Ruling
    ensures { Finds site.now (rule_compare site.now.place site.now.shape a b) (Branches to) result }
{
    let needs = [site.needs_word(a), site.needs_word(b)];
    judge(&needs, site.fork(site.shape, to, site.shape))
}

pub(crate) fn rule_loop(site: &RuleContext<'_>) -> Ruling
    ensures { Finds site.now [] (Goes_on As_before) result }
{
    judge(&[], site.next(site.shape))
}

pub(crate) fn rule_next(site: &RuleContext<'_>, to: InstrPlace) -> Ruling
    ensures { Finds site.now [] (Goes_back to) result }
{
    let to = to.number() as usize;
    let flow = Flow::to_either(to, site.shape, site.place + 1, site.shape);
    judge(&[], flow)
}

pub(crate) fn rule_print(site: &RuleContext<'_>, a: Register) -> Ruling
    ensures { Finds site.now (rule_print site.now.place site.now.shape a) (Goes_on As_before) result }
{
    judge(&[site.needs_word(a)], site.next(site.shape))
}

pub(crate) fn rule_load(site: &RuleContext<'_>, a: Register, w: WordIndex) -> Ruling
    ensures { Finds site.now (rule_load site.now.image site.now.method site.now.shape a w) (Goes_on (Holding a Word)) result }
{
    let needs = [site.needs_unowning(a), site.needs_word_of_object(w)];
    judge(&needs, with_word(site, a))
}

pub(crate) fn rule_store(site: &RuleContext<'_>, w: WordIndex, b: Register) -> Ruling
    ensures { Finds site.now (rule_store site.now.image site.now.method site.now.shape w b) (Goes_on As_before) result }
{
    let needs = [site.needs_word(b), site.needs_word_of_object(w)];
    judge(&needs, site.next(site.shape))
}

pub(crate) fn rule_stop(site: &RuleContext<'_>) -> Ruling
    ensures { Finds site.now [] (Goes_on As_before) result }
{
    judge(&[], site.next(site.shape))
}
