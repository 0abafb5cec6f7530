ghost use Rattle.std.specs.Prelude.{◌≡◌};
ghost use Rattle.triple.specs.Meant.{number as number_of};

/// Why a copy is not taken up or down, with the refusal's number.
#[derive(Clone, Copy, Debug, PartialEq, Eq)]
pub enum CopyFault {
    /// There is no such copy.
    NoCopy = 5,
}

impl CopyFault {
    /// The refusal's number.
    pub fn number(&self) -> u32
        ensures { result ≡ number_of self.now }
    {
        // as `ConfigFault`, since `as` is of one type
        *self as u32
    }
}
