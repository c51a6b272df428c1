//! What the library says of itself.
ghost use Rattle.std.specs.Prelude.{◌≡◌};
ghost use Rattle.flagops_c.specs.About.{about_text};

/// The library's version, the kit that proves it, and the sum of its sources, a line each. `./build` writes the last two.
pub(crate) fn about() -> &'static str
    ensures { result.now ≡ about_text }
{
    "libflagops 0.1.0\nproved with rattle-kit-13f logic dac8208d650f15bf\nsources 2a41ef8f3f2a3a800783f9c3036f82d1840ebc8f1422597707151fc0322a295a\n"
}
