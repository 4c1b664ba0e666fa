//! The statement that declares a method.
ghost use Rattle.std.specs.Prelude.{◌≡◌, [], ◌∷◌, ◌++◌, OnOk};
ghost use Rattle.aom_image.specs.Views.{has};
ghost use Rattle.aom_syntax.specs.Keywords.{keyword_text};
ghost use Rattle.aom_syntax.specs.declared.keyword.Keyword.TheVariants.{Method as MethodWord};
ghost use Rattle.aom_disassembler.specs.Classes.{thing_word};
ghost use Rattle.aom_disassembler.specs.Methods.{role_keyword, word_where, flag_words, letter_where, state_letters, states_word, argument_word, gives_words, promise_words, heading_words};
ghost use Rattle.aom_disassembler.specs.Operands.{method_name};
ghost use Rattle.aom_disassembler.specs.Text.{behind, line_of, parted_by};

use crate::writer::ListingWriter;
use aom_image::{Argument, Gives, Method, MethodFlags, Role, States, Thing};
use aom_syntax::Keyword;
use bitflags::Flags;
use std::alloc::AllocError;

fn role_keyword(role: Role) -> Keyword
    ensures { result ≡ role_keyword role }
{
    match role {
        Role::Do => Keyword::Do,
        Role::Main => Keyword::Main,
        Role::Construct => Keyword::Construct,
        Role::Destruct => Keyword::Destruct,
        Role::Run => Keyword::Run,
        Role::Cancel => Keyword::Cancel,
        Role::Error => Keyword::Error,
        Role::Accept => Keyword::Accept,
        Role::Service => Keyword::Service,
        Role::Undo => Keyword::Undo,
    }
}

impl ListingWriter {
    /// A word, where a flag is set.
    fn flag(
        &mut self,
        flags: MethodFlags,
        flag: MethodFlags,
        keyword: Keyword,
    ) -> Result<(), AllocError>
        ensures { OnOk result (self.new ≡ self.old ++ behind 32 (word_where (has flags.0 flag.0) keyword)) }
    {
        if flags.contains(flag) {
            self.keyword(keyword)
        } else {
            Ok(())
        }
    }

    fn flags(&mut self, flags: MethodFlags) -> Result<(), AllocError>
        ensures { OnOk result (self.new ≡ self.old ++ behind 32 (flag_words flags.0)) }
    {
        self.flag(flags, MethodFlags::LEAVES, Keyword::Leaves)?;
        self.flag(flags, MethodFlags::QUIET, Keyword::Quiet)
    }

    /// A letter, where its state is in the set.
    fn letter(&mut self, set: States, state: States, letter: u8) -> Result<(), AllocError>
        ensures { OnOk result (self.new ≡ self.old ++ letter_where (has set.0 state.0) letter) }
    {
        if set.contains(state) {
            self.push(&[letter])
        } else {
            Ok(())
        }
    }

    fn letters(&mut self, set: States) -> Result<(), AllocError>
        ensures { OnOk result (self.new ≡ self.old ++ state_letters set.0) }
    {
        self.letter(set, States::UNLISTED, b'u')?;
        self.letter(set, States::IDLE, b'i')?;
        self.letter(set, States::ISSUED, b's')?;
        self.letter(set, States::ACTIVE, b'a')?;
        self.letter(set, States::OPEN, b'o')?;
        self.letter(set, States::DONE, b'd')
    }

    /// A keyword and a set behind it.
    fn states(&mut self, keyword: Keyword, set: States) -> Result<(), AllocError>
        ensures { OnOk result (self.new ≡ self.old ++ behind 32 (keyword_text keyword ∷ states_word set.0 ∷ [])) }
    {
        self.keyword(keyword)?;
        if set.bits() == 0 {
            self.word(b"-")
        } else {
            self.push(b" ")?;
            self.letters(set)
        }
    }

    /// An argument, without a space before it.
    pub fn argument(&mut self, argument: Argument) -> Result<(), AllocError>
        ensures { OnOk result (self.new ≡ self.old ++ argument_word argument) }
    {
        match argument {
            Argument::Word => self.push(Keyword::Word.text()),
            Argument::Own(thing) => self.thing(thing),
        }
    }

    /// A keyword, and behind it what may be owned.
    fn owning(&mut self, keyword: Keyword, thing: Thing) -> Result<(), AllocError>
        ensures { OnOk result (self.new ≡ self.old ++ behind 32 (keyword_text keyword ∷ thing_word thing ∷ [])) }
    {
        self.keyword(keyword)?;
        self.push(b" ")?;
        self.thing(thing)
    }

    fn gives(&mut self, gives: Gives) -> Result<(), AllocError>
        ensures { OnOk result (self.new ≡ self.old ++ behind 32 (gives_words gives)) }
    {
        match gives {
            Gives::Nothing => self.keyword(Keyword::Nothing),
            Gives::Word => self.keyword(Keyword::Word),
            Gives::Own(thing) => self.owning(Keyword::Own, thing),
            Gives::Maybe(thing) => self.owning(Keyword::Maybe, thing),
            Gives::Left(class) => {
                self.keyword(Keyword::Left)?;
                self.class_name(class)
            }
        }
    }

    fn promise(&mut self, method: &Method) -> Result<(), AllocError>
        ensures { OnOk result (self.new ≡ self.old ++ behind 32 (promise_words method.now)) }
    {
        self.states(Keyword::In, method.before)?;
        self.states(Keyword::Out, method.after)?;
        self.keyword(Keyword::Args)?;
        self.list(method.arguments.as_slice())?;
        self.keyword(Keyword::Gives)?;
        self.gives(method.gives)
    }

    /// What every heading begins with.
    fn name_and_role(&mut self, place: u32, role: Role) -> Result<(), AllocError>
        ensures { OnOk result (self.new ≡ self.old ++ parted_by 32 (keyword_text MethodWord ∷ method_name place ∷ keyword_text (role_keyword role) ∷ [])) }
    {
        self.first(Keyword::Method)?;
        self.name(b'm', place)?;
        self.keyword(role_keyword(role))
    }

    pub fn heading(&mut self, place: u32, method: &Method) -> Result<(), AllocError>
        ensures { OnOk result (self.new ≡ self.old ++ line_of (heading_words place method.now)) }
    {
        self.name_and_role(place, method.role)?;
        self.class_after(Keyword::Of, method.class)?;
        self.method_after(Keyword::Over, method.over)?;
        self.flags(method.flags)?;
        self.promise(method)?;
        self.end_line()
    }
}
