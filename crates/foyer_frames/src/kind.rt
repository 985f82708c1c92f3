//! What a request asks for.
ghost use Rattle.std.specs.Prelude.{◌≡◌};
ghost use Rattle.foyer_frames.specs.Kind.{has_key, has_value, kind_byte, kind_of};

/// What a request asks for. Its byte is a letter.
#[derive(Clone, Copy, Debug, PartialEq, Eq)]
pub enum Kind {
    /// `p`: put a value under a key.
    Put,
    /// `g`: get the value of a key.
    Get,
    /// `d`: delete a key.
    Delete,
    /// `h`: ask whether the cache has a key's hash.
    Contains,
    /// `w`: wait until what was put is written or given up.
    Wait,
    /// `c`: the counters, by their names.
    Counters,
    /// `x`: delete everything.
    Destroy,
    /// `q`: close the cache.
    Close,
    /// `v`: ask which program answers.
    Version,
}

impl Kind {
    /// Gives the kind whose letter the byte is. `None` if it is no kind's letter.
    pub fn of_byte(byte: u8) -> Option<Kind>
        ensures { result ≡ kind_of byte }
    {
        match byte {
            b'p' => Some(Kind::Put),
            b'g' => Some(Kind::Get),
            b'd' => Some(Kind::Delete),
            b'h' => Some(Kind::Contains),
            b'w' => Some(Kind::Wait),
            b'c' => Some(Kind::Counters),
            b'x' => Some(Kind::Destroy),
            b'q' => Some(Kind::Close),
            b'v' => Some(Kind::Version),
            _ => None,
        }
    }

    /// Gives the kind's letter as a byte.
    pub fn byte(self) -> u8
        ensures { result ≡ kind_byte self }
    {
        match self {
            Kind::Put => b'p',
            Kind::Get => b'g',
            Kind::Delete => b'd',
            Kind::Contains => b'h',
            Kind::Wait => b'w',
            Kind::Counters => b'c',
            Kind::Destroy => b'x',
            Kind::Close => b'q',
            Kind::Version => b'v',
        }
    }

    /// Whether such a request has a key, which may be empty.
    pub fn has_key(self) -> bool
        ensures { result ≡ has_key self }
    {
        match self {
            Kind::Put | Kind::Get | Kind::Delete | Kind::Contains => true,
            Kind::Wait | Kind::Counters | Kind::Destroy | Kind::Close | Kind::Version => false,
        }
    }

    /// Whether such a request has a value, which may be empty.
    pub fn has_value(self) -> bool
        ensures { result ≡ has_value self }
    {
        match self {
            Kind::Put => true,
            _ => false,
        }
    }
}
