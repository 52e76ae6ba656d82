//! What the formatter builds documents from: the comments of named tokens, the documents of comments, and the cleaning of
//! a text. All positions are in bytes.
mod cleaning;
mod comments;
mod lookups;

pub use cleaning::{
    append_without_empty_lines, find_comment_at, find_string_at, remove_empty_lines,
};
pub use comments::{
    add_brackets, add_comment, get_leading_comment_doc_from_str, get_trailing_comment_doc_from_str,
};
pub use lookups::{
    get_comment_after_end, get_comment_after_end_counted, get_comment_at_end,
    get_comment_at_end_counted, get_comment_at_start, get_comment_at_start_counted,
    get_comment_in_range, get_comment_in_range_counted, get_leading_comment_at_start,
    get_leading_comment_at_start_counted, in_order,
};
