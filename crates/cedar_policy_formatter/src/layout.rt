//! Documents, and their layout at a width.
pub use cedar_layout::layout::{
    Document, Steps, every_choice_prints_the_atoms, intersperse, one_layout_at_a_width,
    wide_lines_are_broken,
};
pub use cedar_print::render::{render, render_counted};
