// Bytes of a length that is known to be right.
ghost use Rattle.std.specs.Prelude.{length};
ghost use Rattle.packet.specs.Sealing.{Sealable};
ghost use Rattle.lane.specs.Meaning.{SizedFrame};

// A load that can be sealed: an even number of bytes, 6 to 272.
#[derive(Clone, Copy)]
pub struct SealableLoad<'a> {
    pub(crate) bytes: &'a [u8],
    ghost sealable: { Sealable (length bytes.now) },
}

// A frame, of 1 to 276 bytes.
#[derive(Clone, Copy)]
pub struct Frame<'a> {
    pub(crate) bytes: &'a [u8],
    ghost sized: { SizedFrame bytes.now },
}
