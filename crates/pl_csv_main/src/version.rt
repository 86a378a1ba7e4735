//! Which program this is, made by manual/make of release/version and release/kit.

/// Its version, and by what it was proved and built.
pub(crate) static VERSION: &str =
    "pl_csv 0.1.0\nproved and built by rattle-kit-13f logic dac8208d650f15bf\n";
