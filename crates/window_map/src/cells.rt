// The byte of a height.
ghost use Rattle.std.specs.Prelude.{◌≡◌};
ghost use Rattle.model.specs.Image.{bit};
ghost use Rattle.model.specs.MapBytes.{byte_formed, byte_complete};

// Whether some height is written as this byte.
pub fn is_formed(byte: u8) -> bool
    ensures { result ≡ byte_formed byte }
{
    if byte < 64 {
        return byte % 16 < (1u8 << (byte / 16));
    }
    byte == 128
}

// Whether it is a complete height's.
pub fn is_complete(byte: u8) -> bool
    ensures { result ≡ byte_complete byte }
{
    (byte == 0) | ((byte == 17) | ((byte == 35) | (byte == 55)))
}

// The same as a digit of a mark.
pub fn digit(byte: u8) -> u64
    ensures { result ≡ bit (byte_complete byte) }
{
    u64::from(is_complete(byte))
}
