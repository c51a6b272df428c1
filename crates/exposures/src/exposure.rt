ghost use Rattle.std.specs.Prelude.{◌≡◌, map, string_bytes};
ghost use Rattle.exposures.specs.Exposure.{IsExposure};

use std::marker::Model;

/// The inputs on a page: each once, in strictly rising order of their bytes.
#[derive(Debug, Drop)]
pub struct Exposure {
    inputs: Vec<String>,
}

impl Model for Exposure {
    ghost use Rattle.std.specs.Prelude.{map, string_bytes};
    ghost use Rattle.exposures.specs.Exposure.{Inputs, IsExposure};

    ghost Value = { Inputs };

    ghost view = { λ e. map string_bytes e.inputs.items };

    ghost invariant = { λ e. IsExposure (map string_bytes e.inputs.items) };
}

impl Exposure {
    /// The exposure of these inputs, which rise strictly by their bytes, at most 1000000 of at most 1024 bytes each.
    pub fn of_rising(inputs: Vec<String>) -> Exposure
        requires { IsExposure (map string_bytes inputs.items) }
        ensures { result ≡ map string_bytes inputs.items }
    {
        Exposure { inputs }
    }

    /// The inputs, in strictly rising order of their bytes.
    pub fn inputs(&self) -> &[String]
        ensures all { map string_bytes result.now ≡ self.now }
        ensures lawful { IsExposure self.now }
    {
        self.inputs.as_slice()
    }
}
