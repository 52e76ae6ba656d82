//! Paths, entities, signs and annotations: lines without expressions and indentation.
ghost use Rattle.std.specs.Prelude.{◌≡◌};
ghost use Rattle.cedar_tokens.specs.declared.kind.Kind.TheVariants as K;
ghost use Rattle.cedar_writer.specs.Rules.{never, star, signs};
ghost use Rattle.cedar_writer.specs.Lines.{annotation, entity, field, ident, path, str};
ghost use Rattle.cedar_tokens.specs.Kinds.{is};
ghost use Rattle.cedar_writer.specs.Writing.{finish};
ghost use Rattle.cedar_writer.specs.Depths.{alone, often};
ghost use Rattle.cedar_writer.specs.Parts.{annotation_end, index, key, last_comma, next_word, some_signs};

use crate::sets::Set;
use crate::writer::Writer;
use cedar_print::mark::Mark;
use cedar_tokens::kind::Kind;

impl Writer<'_, '_, '_> {
    // Path = IDENT {'::' IDENT}
    pub(crate) fn path(&mut self)
        ensures { self.new ≡ alone path self.old }
    {
        self.take(Set::Ident);
        self.next_words();
    }

    // {'::' IDENT}
    fn next_words(&mut self)
        ensures { self.new ≡ alone (star next_word) self.old }
    {
        'words: while self.begins(Set::Only(Kind::DoubleColon)) {
            self.next_word();
        }
    }

    // '::' IDENT
    fn next_word(&mut self)
        ensures { self.new ≡ alone next_word self.old }
    {
        self.take(Set::Only(Kind::DoubleColon));
        self.take(Set::Ident);
    }

    // {'::' IDENT} before what else may come after '::'
    pub(crate) fn words(&mut self)
        ensures { self.new ≡ often K.DoubleColon ident self.old }
    {
        'words: while self.goes(Set::Only(Kind::DoubleColon), Set::Ident) {
            self.next_word();
        }
    }

    // Entity = Path '::' STR
    pub(crate) fn entity(&mut self)
        ensures { self.new ≡ alone entity self.old }
    {
        self.take(Set::Ident);
        self.words();
        self.entity_end();
    }

    // '::' STR
    fn entity_end(&mut self)
        ensures { self.new ≡ finish (is K.DoubleColon) (alone str) (alone never) self.old }
    {
        if self.begins(Set::Only(Kind::DoubleColon)) {
            self.take(Set::Only(Kind::DoubleColon));
            self.take(Set::Only(Kind::Str));
        } else {
            self.refuse(false);
        }
    }

    // '.' IDENT
    pub(crate) fn field(&mut self)
        ensures { self.new ≡ alone field self.old }
    {
        self.take(Set::Only(Kind::Dot));
        self.take(Set::Ident);
    }

    // '[' STR ']'
    pub(crate) fn index(&mut self)
        ensures { self.new ≡ alone index self.old }
    {
        self.take(Set::Only(Kind::LBracket));
        self.take(Set::Only(Kind::Str));
        self.take(Set::Only(Kind::RBracket));
    }

    // IDENT | STR
    pub(crate) fn key(&mut self)
        ensures { self.new ≡ alone key self.old }
    {
        if self.begins(Set::Ident) {
            self.take(Set::Ident);
        } else {
            self.take(Set::Only(Kind::Str));
        }
    }

    // [',']
    pub(crate) fn last_comma(&mut self)
        ensures { self.new ≡ alone last_comma self.old }
    {
        if self.begins(Set::Only(Kind::Comma)) {
            self.take(Set::Only(Kind::Comma));
        }
    }

    // one to four of this kind
    fn signs(&mut self, kind: Kind)
        ensures { self.new ≡ alone (signs kind) self.old }
    {
        self.take(Set::Only(kind));
        if self.begins(Set::Only(kind)) {
            self.take(Set::Only(kind));
            if self.begins(Set::Only(kind)) {
                self.take(Set::Only(kind));
                if self.begins(Set::Only(kind)) {
                    self.take(Set::Only(kind));
                }
            }
        }
    }

    // [one to four '!', or one to four '-']
    pub(crate) fn some_signs(&mut self)
        ensures { self.new ≡ alone some_signs self.old }
    {
        if self.begins(Set::Only(Kind::Neg)) {
            self.signs(Kind::Neg);
        } else if self.begins(Set::Only(Kind::Dash)) {
            self.signs(Kind::Dash);
        }
    }

    // {Annotation}
    pub(crate) fn annotations(&mut self)
        ensures { self.new ≡ alone (star annotation) self.old }
    {
        'annotations: while self.begins(Set::Only(Kind::At)) {
            self.annotation();
        }
    }

    // Annotation = '@' anyword ['(' STR ')']
    pub(crate) fn annotation(&mut self)
        ensures { self.new ≡ alone annotation self.old }
    {
        self.take(Set::Only(Kind::At));
        self.take(Set::AnyWord);
        self.annotation_end();
    }

    // ['(' STR ')'], and a break
    fn annotation_end(&mut self)
        ensures { self.new ≡ alone annotation_end self.old }
    {
        if self.begins(Set::Only(Kind::LParen)) {
            self.take(Set::Only(Kind::LParen));
            self.take(Set::Only(Kind::Str));
            self.take_then(Set::Only(Kind::RParen), Mark::Hard);
        } else {
            self.put(Mark::Hard);
        }
    }
}
