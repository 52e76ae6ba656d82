//! Takes the comments of the tokens that a node says it has.
ghost use Rattle.std.specs.Prelude.{◌≡◌, ◌+◌, ◌++◌, ◌∷◌, List, length, map, nat_le, nat_lt, IfOk};
ghost use Rattle.std.specs.List.{prefix_len};
ghost use Rattle.cedar_layout.specs.Lookups.{AreInOrder, Shown, comment_parts, emptied, shown};
ghost use Rattle.cedar_documents.specs.Found.{count_between, places, starts};
ghost use Rattle.cedar_documents.specs.Items.{item_of, items_of};
ghost use Rattle.cedar_documents.specs.Kept.{KeepsTokens};
ghost use Rattle.cedar_documents.specs.Taking.{BeginsAt, Follow, by_value, has, has_all, own, texts_of};

use crate::items::Item;
use cedar_tokens::token::{Comment, WrappedToken};
use std::alloc::{AllocError, Global};

/// A token of a node: its text, as the node has it, and the comments that were taken from the token.
#[derive(Drop)]
pub struct OwnToken<'src> {
    pub text: &'src str,
    pub comment: Comment<'src>,
}

/// How many tokens start before this byte.
fn count_before(byte: usize, tokens: &[WrappedToken<'_>]) -> usize
    requires { AreInOrder tokens.now }
    ensures { result ≡ prefix_len (λ t. nat_lt t.span.start byte) tokens.now }
{
    tokens.partition_point(
        |token: &WrappedToken<'_>| -> bool
            ensures { result ≡ nat_lt token.now.span.start byte }
        { token.span.start < byte },
    )
}

/// How many tokens end at or before this byte.
fn count_until(byte: usize, tokens: &[WrappedToken<'_>]) -> usize
    requires { AreInOrder tokens.now }
    ensures { result ≡ prefix_len (λ t. nat_le t.span.end byte) tokens.now }
{
    tokens.partition_point(
        |token: &WrappedToken<'_>| -> bool
            ensures { result ≡ nat_le token.now.span.end byte }
        { token.span.end <= byte },
    )
}

/// Whether a token starts at this byte.
fn starts(byte: usize, tokens: &[WrappedToken<'_>]) -> bool
    requires { AreInOrder tokens.now }
    ensures { result ≡ starts byte (places tokens.now) }
{
    let place = count_before(byte, tokens);
    place < tokens.len() && tokens[place].span.start == byte
}

/// How many tokens are between two bytes.
fn count_between(start: usize, end: usize, tokens: &[WrappedToken<'_>]) -> usize
    requires { AreInOrder tokens.now }
    ensures { result ≡ count_between start end (places tokens.now) }
{
    let before = count_before(start, tokens);
    count_until(end, tokens).saturating_sub(before)
}

/// Whether the tokens include those that this item needs.
fn has(item: Item<'_>, tokens: &[WrappedToken<'_>]) -> bool
    requires { AreInOrder tokens.now }
    ensures { result ≡ has (places tokens.now) (item_of item.entry) }
{
    match item {
        Item::Token(_) | Item::At(_) => true,
        Item::Needed(byte) => starts(byte, tokens),
        Item::Signs { count, start, end } => {
            count == 0 || count_between(start, end, tokens) == usize::from(count)
        }
    }
}

/// Whether the tokens include those that the items need: one that starts at each `Needed` byte, and as many as there are
/// signs between the two bytes of `Signs`. It looks for each with binary search. Allocates nothing.
pub fn has_all(items: &[Item<'_>], tokens: &[WrappedToken<'_>]) -> bool
    requires { AreInOrder tokens.now }
    ensures { result ≡ has_all (places tokens.now) (items_of items.now) }
{
    for item in items {
        if !has(*item, tokens) {
            return false;
        }
    }
    true
}

/// The place of the first token that starts at or after this byte. It is looked for at `place` first.
fn place_of(byte: usize, place: usize, tokens: &[WrappedToken<'_>]) -> usize
    requires { AreInOrder tokens.now }
    ensures { result ≡ prefix_len (λ t. nat_lt t.span.start byte) tokens.now }
{
    if place < tokens.len() && tokens[place].span.start == byte {
        return place;
    }
    count_before(byte, tokens)
}

/// The comment of the token at this place, which is left empty, and the place after it; an empty comment, if no token
/// is there.
fn next_comment<'src>(
    alloc: Global,
    place: &mut usize,
    tokens: &mut [WrappedToken<'src>],
) -> Comment<'src>
    requires { AreInOrder tokens.old }
    ensures order { AreInOrder tokens.new }
    ensures kept { KeepsTokens tokens.old tokens.new }
    ensures taken { (before : List Shown) (t : Shown) (after : List Shown) → map shown tokens.old ≡ before ++ (t ∷ after) → place.old ≡ length before → (comment_parts result ≡ t.comment) × (place.new ≡ length before + 1) × (map shown tokens.new ≡ before ++ (emptied t ∷ after)) }
{
    if *place >= tokens.len() {
        return Comment::empty(alloc);
    }
    let comment = tokens[*place].consume_comment();
    *place += 1;
    comment
}

/// Takes the comments of the tokens that a node lists, and leaves these tokens without comments.
///
/// Each `Token` gives its text and the comments of the next token, or no comments after the last token. The next token is
/// the first at the beginning. At an `At` or a `Needed` it becomes the first that starts at or after that byte, found
/// with binary search unless it is the next one already. If memory runs out, the comments taken so far are lost.
pub fn take_tokens<'src>(
    alloc: Global,
    items: &[Item<'src>],
    tokens: &mut [WrappedToken<'src>],
) -> Result<Vec<OwnToken<'src>>, AllocError>
    requires { AreInOrder tokens.old }
    ensures order { AreInOrder tokens.new }
    ensures kept { KeepsTokens tokens.old tokens.new }
    ensures texts { IfOk result (λ v. map (λ t. t.text.now) v.items ≡ texts_of (items_of items.now)) }
    ensures taken { (before ts after : List Shown) → map shown tokens.old ≡ before ++ (ts ++ after) → BeginsAt (items_of items.now) → Follow (items_of items.now) ts → IfOk result (λ v. (map own v.items ≡ map by_value ts) × (map shown tokens.new ≡ (before ++ map emptied ts) ++ after)) }
{
    let mut taken = Vec::new(alloc);
    let mut place = 0;
    for item in items {
        match *item {
            Item::Token(text) => {
                let comment = next_comment(alloc, &mut place, tokens);
                taken.push(OwnToken { text, comment })?;
            }
            Item::At(byte) => place = place_of(byte, place, tokens),
            Item::Needed(byte) => place = place_of(byte, place, tokens),
            Item::Signs { .. } => {}
        }
    }
    Ok(taken)
}
