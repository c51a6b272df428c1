//! The two outputs of a command.
ghost use Rattle.std.specs.Prelude.{◌≡◌};
ghost use Rattle.flagops_shell.specs.Console.{Shown};

use flag_text::Outlet;
use std::marker::Model;

/// The output, which is for programs, and the error output, which is for people. Contracts see what both show.
#[derive(Drop)]
pub struct Console<O: Outlet, E: Outlet> {
    /// The output.
    pub out: O,
    /// The error output.
    pub err: E,
}

impl<O: Outlet, E: Outlet> Model for Console<O, E> {
    ghost Value = { Shown };

    ghost view = { λ c. record {
      printed = O.bytes c.out;
      is_broken = O.is_broken c.out;
      reported = E.bytes c.err;
      is_mute = E.is_broken c.err;
    } };
}

impl<O: Outlet, E: Outlet> Console<O, E> {
    /// The console of these two outputs.
    pub fn new(out: O, err: E) -> Console<O, E>
        ensures { result ≡ record {
          printed = O.bytes out;
          is_broken = O.is_broken out;
          reported = E.bytes err;
          is_mute = E.is_broken err;
        } }
    {
        Console { out, err }
    }
}
