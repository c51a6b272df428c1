//! The flag of a key, by halving.
ghost use Rattle.std.specs.Prelude.{◌≡◌, option_map};
ghost use Rattle.std.specs.Map.{lookup};
ghost use Rattle.std.specs.Str.{bytes_eq};
ghost use Rattle.flag_defs.specs.Flag.{flag_view};
ghost use Rattle.flag_defs.specs.Flags.{flags_view};
ghost use Rattle.flag_defs.specs.Floats.{floats_at, floats_of, floats_view};

use crate::flag::Flag;
use crate::flags::Flags;
use crate::kind::Kind;

impl Flags {
    /// The flag of this key, where there is one, found by halving.
    pub fn get(&self, key: &str) -> Option<&Flag>
        ensures { option_map (λ f. flag_view f.now) result ≡ lookup (bytes_eq key.now) (flags_view self.now) }
    {
        self.find(key)
    }

    /// The kind of the values of this key's flag where these stand as texts: [`Kind::Float`] or [`Kind::Object`]. Found by halving.
    pub fn floats_at(&self, key: &str) -> Option<Kind>
        ensures { result ≡ floats_at key.now (flags_view self.now) (floats_view self.now) }
    {
        match self.find(key) {
            Some(flag) => flag.floats_kind(),
            None => None,
        }
    }

    fn find(&self, key: &str) -> Option<&Flag>
        ensures value { option_map (λ f. flag_view f.now) result ≡ lookup (bytes_eq key.now) (flags_view self.now) }
        ensures floats { option_map (λ f. floats_of f.now) result ≡ lookup (bytes_eq key.now) (floats_view self.now) }
    {
        let flags = self.flags.as_slice();
        match flags.binary_search_by(|(other, _)| other.as_str().cmp(key)) {
            Ok(place) => Some(&flags[place].1),
            Err(_) => None,
        }
    }
}
