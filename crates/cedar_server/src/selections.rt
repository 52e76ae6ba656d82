//! The blocks of a text around a place.
ghost use Rattle.std.specs.Prelude.{◌≡◌, ◌&&◌, ◌++◌, IfOk, None, OnOk, reverse};
ghost use Rattle.cedar_server.specs.Selections.{AreBlocks, after_part, after_token, around, closed_by, grows, is_word, last_blocks, outside, pair_blocks, part_blocks, token_blocks, touches};
ghost use Rattle.cedar_server.specs.Inside.Selecting.{nesting_of};
ghost use Rattle.cedar_server.specs.Parts.{HasPartKind};

use crate::parts::{Part, PartKind, Parts};
use cedar_tokens::kind::{Kind, kind_of};
use cedar_tokens::token::Span;
use std::alloc::{AllocError, Global};

/// A bracket that is open.
#[derive(Clone, Copy)]
pub struct Opened {
    /// The kind of the bracket.
    pub kind: Kind,
    /// Its byte.
    pub part: Span,
}

// What is around a place: the brackets that are open, the innermost last, and where the first token since the last `;` begins.
#[derive(Drop)]
struct Nesting {
    opened: Vec<Opened>,
    start: Option<usize>,
}

/// The blocks of any text, in bytes, in the order of their ends: each word, string, number and comment; what is between two
/// brackets, and the same with them; what is between two `;`, from its first token; and the whole text. A closing bracket
/// that closes none since the last `;` is passed over.
pub fn blocks(alloc: Global, text: &str) -> Result<Vec<Span>, AllocError>
    ensures { IfOk result (λ blocks. AreBlocks text.now blocks.items) }
{
    let mut blocks = Vec::new(alloc);
    let mut nesting = Nesting {
        opened: Vec::new(alloc),
        start: None,
    };
    let mut end = 0;
    for part in Parts::new(text) {
        let start = end;
        end += part.text.len();
        nesting.take(part, Span { start, end }, &mut blocks)?;
    }
    finish(nesting.start, end, &mut blocks)?;
    Ok(blocks)
}

/// Of these blocks, those around the byte `at`: the first one that it touches, and then each that it touches and that has all
/// of the one before, and more.
pub fn blocks_around(alloc: Global, blocks: &[Span], at: usize) -> Result<Vec<Span>, AllocError>
    ensures { IfOk result (λ found. found.items ≡ around at None blocks.now) }
{
    let mut found = Vec::new(alloc);
    let mut last = None;
    for block in blocks {
        if !is_next(at, last, *block) {
            continue;
        }
        found.push(*block)?;
        last = Some(*block);
    }
    Ok(found)
}

// Adds the blocks that the end of a text of `len` bytes ends: what is from `start` on, if anything is, and the whole text.
fn finish(start: Option<usize>, len: usize, blocks: &mut Vec<Span>) -> Result<(), AllocError>
    ensures { OnOk result (blocks.new.items ≡ blocks.old.items ++ last_blocks start len) }
{
    let whole = Span { start: 0, end: len };
    match start {
        Some(start) => {
            blocks.push(Span { start, end: len })?;
            blocks.push(whole)?;
            Ok(())
        }
        None => {
            blocks.push(whole)?;
            Ok(())
        }
    }
}

// Whether a block is the next one around a place.
fn is_next(at: usize, last: Option<Span>, block: Span) -> bool
    ensures { result ≡ (touches at block && grows last block) }
{
    touches(at, block) && grows(last, block)
}

// Whether a place is in a block, or at one of its ends.
fn touches(at: usize, block: Span) -> bool
    ensures { result ≡ touches at block }
{
    block.start <= at && at <= block.end
}

// Whether a block has all of the one before, and more.
fn grows(last: Option<Span>, block: Span) -> bool
    ensures { result ≡ grows last block }
{
    match last {
        Some(inner) => {
            block.start <= inner.start
                && inner.end <= block.end
                && (block.start < inner.start || inner.end < block.end)
        }
        None => true,
    }
}

impl Nesting {
    // Goes over a part of the text, and adds the blocks that it ends.
    fn take(&mut self, part: Part, span: Span, blocks: &mut Vec<Span>) -> Result<(), AllocError>
        requires { HasPartKind part.kind part.text.now }
        ensures blocks { OnOk result (blocks.new.items ≡ blocks.old.items ++ part_blocks (nesting_of self.old) part.entry.text.now span) }
        ensures nesting { OnOk result (nesting_of self.new ≡ after_part (nesting_of self.old) part.entry.text.now span) }
    {
        match part.kind {
            PartKind::Token => self.take_token(kind_of(part.text), span, blocks),
            PartKind::Comment => {
                blocks.push(span)?;
                Ok(())
            }
            PartKind::Other => Ok(()),
        }
    }

    // Goes over a token, and adds the blocks that it ends.
    fn take_token(
        &mut self,
        kind: Kind,
        part: Span,
        blocks: &mut Vec<Span>,
    ) -> Result<(), AllocError>
        ensures blocks { OnOk result (blocks.new.items ≡ blocks.old.items ++ token_blocks (nesting_of self.old) kind part) }
        ensures nesting { OnOk result (nesting_of self.new ≡ after_token (nesting_of self.old) kind part) }
    {
        let start = self.start.unwrap_or(part.start);
        if is_word(kind) {
            self.start = Some(start);
            blocks.push(part)?;
            return Ok(());
        }
        if kind.is_opening() {
            self.start = Some(start);
            self.opened.push(Opened { kind, part })?;
            return Ok(());
        }
        if kind.is_closing() {
            self.start = Some(start);
            return close(kind, part, &mut self.opened, blocks);
        }
        if !matches!(kind, Kind::SemiColon) {
            self.start = Some(start);
            return Ok(());
        }
        self.start = None;
        self.opened.clear();
        let end = part.end;
        blocks.push(Span { start, end })?;
        Ok(())
    }
}

// Closes the innermost open bracket that is closed by this one, if there is one, and adds both blocks.
fn close(
    kind: Kind,
    part: Span,
    opened: &mut Vec<Opened>,
    blocks: &mut Vec<Span>,
) -> Result<(), AllocError>
    ensures blocks { OnOk result (blocks.new.items ≡ blocks.old.items ++ pair_blocks (closed_by kind (reverse opened.old.items)) part) }
    ensures opened { OnOk result (reverse opened.new.items ≡ outside (closed_by kind (reverse opened.old.items)) (reverse opened.old.items)) }
{
    for i in (0..opened.len()).rev() {
        let bracket = opened[i];
        if bracket.kind.is_closed_by(kind) {
            opened.truncate(i);
            blocks.push(Span {
                start: bracket.part.end,
                end: part.start,
            })?;
            blocks.push(Span {
                start: bracket.part.start,
                end: part.end,
            })?;
            return Ok(());
        }
    }
    Ok(())
}

// Whether it is the kind of a word, a slot, a string or a number.
fn is_word(kind: Kind) -> bool
    ensures { result ≡ is_word kind }
{
    kind.is_word()
        || matches!(
            kind,
            Kind::PrincipalSlot | Kind::ResourceSlot | Kind::Str | Kind::Number
        )
}
