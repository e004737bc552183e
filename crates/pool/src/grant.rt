//! The right to one buffer.

ghost use Rattle.std.specs.Prelude.{◌≡◌};

/// The right to one buffer that is out. It is neither copied nor let go: it is spent by sending or by handing back.
pub struct Grant {
    pub(crate) buffer: u8,
}

impl Grant {
    /// Spends the grant by sending: the buffer stays out, and its number is known.
    pub fn send(self) -> u8
        ensures { result ≡ self.buffer }
    {
        let Grant { buffer } = self;
        buffer
    }
}
