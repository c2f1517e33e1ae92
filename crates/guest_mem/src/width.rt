ghost use Rattle.std.specs.Prelude.{◌≡◌};

/// How many bytes an access has.
#[derive(Clone, Copy, Debug, PartialEq, Eq)]
pub enum Width {
    One,
    Two,
    Four,
}

impl Width {
    ghost use Rattle.guest_mem.specs.Width.{size_of};

    /// The number of bytes.
    pub fn size(self) -> u32
        ensures { result ≡ size_of self }
    {
        match self {
            Width::One => 1,
            Width::Two => 2,
            Width::Four => 4,
        }
    }
}
