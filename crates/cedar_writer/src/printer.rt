//! A text with one policy, read and laid out.
ghost use Rattle.std.specs.Prelude.{◌≡◌, ◌∷◌, [], ◌++◌, length, string_bytes, OnOk, IfErr, MatchResult};
ghost use Rattle.cedar_tokens.specs.Bytes.{line_feed};
ghost use Rattle.cedar_grammar.specs.Laws.{AreTokens};
ghost use Rattle.cedar_grammar.specs.Texts.{greatest_depth};
ghost use Rattle.cedar_reading.specs.Lexemes.{AreLexemes};
ghost use Rattle.cedar_reading.specs.Pieces.{IsFirstPiece};
ghost use Rattle.cedar_print.specs.Marks.{marks_of};
ghost use Rattle.cedar_print.specs.WrittenMarks.{AreMarks};
ghost use Rattle.cedar_written.specs.Output.{IsOutputOf};
ghost use Rattle.cedar_writer.specs.Printed.{HasMarks, IsLaidOut, IsNotPolicy, IsNotPrinted, IsPolicyRead};

use crate::policy::{Refusal, write_policy};
use cedar_grammar::MAX_NESTING;
use cedar_print::mark::{Indent, Mark};
use cedar_print::printer::Printer;
use cedar_reading::lexeme::Lexeme;
use cedar_reading::listing::{has_trailing_comma, store_plain_tokens, store_tokens};
use cedar_reading::token::Token;
use cedar_reading::token_check::has_tokens;
use std::alloc::{AllocError, Global};

/// Why a policy is not printed.
#[derive(Clone, Copy)]
pub enum NotPrinted {
    /// Its text is not accepted.
    NotAccepted,
    /// What was laid out does not have the policy's tokens. By the proofs this never happens.
    Unsound,
    /// An allocation failed.
    OutOfMemory,
}

impl From<AllocError> for NotPrinted {
    ghost use Rattle.std.specs.Prelude.{◌≡◌};
    ghost use Rattle.cedar_writer.specs.declared.printer.NotPrinted.TheVariants.{OutOfMemory};

    ghost from_gives = { λ _ e. e ≡ OutOfMemory };

    fn from(_error: AllocError) -> NotPrinted {
        NotPrinted::OutOfMemory
    }
}

/// Reads and lays out policies. Between two calls it only holds memory for reuse.
#[derive(Drop)]
pub struct PolicyPrinter<'src> {
    tokens: Vec<Token<'src, 'src>>,
    marks: Vec<Mark<'src>>,
    printer: Printer,
}

impl<'src> PolicyPrinter<'src> {
    /// A printer without room yet.
    pub fn new(alloc: Global) -> PolicyPrinter<'src> {
        PolicyPrinter {
            tokens: Vec::new(alloc),
            marks: Vec::new(alloc),
            printer: Printer::new(alloc),
        }
    }

    /// Replaces `out` by the output of a text that has one `;`: its policy, laid out at a width, in columns, and an
    /// indentation. `lexemes` are the text's. After an error the contents of `out` are unspecified.
    pub fn print(
        &mut self,
        text: &'src str,
        lexemes: &[Lexeme<'src>],
        width: usize,
        indent: Indent,
        out: &mut String,
    ) -> Result<(), NotPrinted>
        requires piece { IsFirstPiece text.now (length text.now) }
        requires lexemes { AreLexemes text.now lexemes.now }
        ensures { MatchResult result (λ _. IsOutputOf width indent.columns text.now (string_bytes out.new)) (IsNotPrinted text.now) }
    {
        self.read(text, lexemes, indent)?;
        self.lay_out(width, out)?;
        if has_tokens(out.as_str(), &self.tokens) {
            Ok(())
        } else {
            Err(NotPrinted::Unsound)
        }
    }

    // Reads the tokens of the text without trailing commas, and writes the marks of the policy that they are. The text is
    // accepted only with its trailing commas, so they are read first if there are any.
    fn read(
        &mut self,
        text: &'src str,
        lexemes: &[Lexeme<'src>],
        indent: Indent,
    ) -> Result<(), NotPrinted>
        requires piece { IsFirstPiece text.now (length text.now) }
        requires lexemes { AreLexemes text.now lexemes.now }
        ensures { MatchResult result (λ _. IsPolicyRead indent.columns text.now self.new.tokens.items (marks_of self.new.marks.items)) (IsNotPrinted text.now) }
    {
        store_tokens(text, lexemes, &mut self.tokens)?;
        self.write(indent)?;
        if !has_trailing_comma(&self.tokens) {
            return Ok(());
        }
        store_plain_tokens(text, lexemes, &mut self.tokens)?;
        self.write(indent)
    }

    // Writes the marks of the policy that the tokens are.
    fn write(&mut self, indent: Indent) -> Result<(), NotPrinted>
        requires { AreTokens (λ t. t.text) self.old.tokens.items }
        ensures tokens { self.new.tokens ≡ self.old.tokens }
        ensures marks { MatchResult result (λ _. HasMarks indent.columns self.old.tokens.items (marks_of self.new.marks.items)) (IsNotPolicy indent.columns self.old.tokens.items) }
    {
        match write_policy(&self.tokens, &mut self.marks, indent, MAX_NESTING) {
            Ok(left) => {
                if left == 0 {
                    Ok(())
                } else {
                    Err(NotPrinted::NotAccepted)
                }
            }
            Err(Refusal::Grammar { .. }) => Err(NotPrinted::NotAccepted),
            Err(Refusal::TooDeep { .. }) => Err(NotPrinted::NotAccepted),
            Err(Refusal::OutOfMemory) => Err(NotPrinted::OutOfMemory),
        }
    }

    // Replaces `out` by the layout of the marks without blank lines, and a line feed.
    fn lay_out(&mut self, width: usize, out: &mut String) -> Result<(), AllocError>
        ensures tokens { self.new.tokens ≡ self.old.tokens }
        ensures layout { OnOk result (IsLaidOut width (marks_of self.old.marks.items) (string_bytes out.new)) }
    {
        out.clear();
        self.printer.lay_out_clean(&self.marks, width, out)?;
        Ok(out.push('\n')?)
    }
}
