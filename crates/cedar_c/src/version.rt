//! The version of the library.

/// The version: the project's own (the file `VERSION`), and the kit that proves it (the file `KIT`). `tools/version` checks it
/// against both files, and a build without a proof says here that it is one.
pub const VERSION: &str = "noblesilk 1.0.0, proved with rattle-kit-13f logic dac8208d650f15bf";
