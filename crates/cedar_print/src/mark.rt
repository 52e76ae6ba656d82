//! Marks: a document as it is written, from left to right.

/// How many columns more the breaks of a nest are indented. A negative number moves them to the left, and they stop at the
/// margin.
#[derive(Clone, Copy, Debug, PartialEq, Eq)]
pub struct Indent {
    pub columns: isize,
}

/// A text, a break, or where a nest or a group begins or ends. What begins doesn't say yet whether it is a group: its end
/// does.
#[derive(Clone, Copy, Debug, PartialEq, Eq)]
pub enum Mark<'src> {
    /// A text, which is never broken.
    Text(&'src str),
    /// A space, which is never broken.
    Space,
    /// A space where it is laid out flat, else a break.
    Line,
    /// Nothing where it is laid out flat, else a break.
    LineOrNil,
    /// A break, always.
    Hard,
    /// The beginning of a nest, whose breaks are indented by so much more.
    Nest(Indent),
    /// The end of a nest.
    EndNest,
    /// The beginning of a group, or of nothing.
    Begin,
    /// The end of a group, which is laid out flat as a whole if it fits.
    EndGroup,
    /// The end of what began and is no group.
    EndNothing,
}
