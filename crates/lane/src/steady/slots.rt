// The slots of a steady lane.
ghost use Rattle.std.specs.Prelude.{◌≡◌, ◌≤◌, ◌++◌, length, drop};
ghost use Rattle.lane.specs.Meaning.{SizedFrame};
ghost use Rattle.lane.specs.Slots.{held};

use crate::FRAME;
use crate::steady::Slot;

impl Slot {
    // A slot that holds a frame.
    pub(crate) fn of(frame: &[u8]) -> Slot
        requires { SizedFrame frame.now }
        ensures { held result ≡ frame.now }
    {
        let mut bytes = [0; FRAME];
        bytes[..frame.len()].copy_from_slice(frame);
        Slot {
            bytes,
            len: frame.len(),
        }
    }

    // Copies the frame to the front of a buffer and answers its length.
    pub(crate) fn copy_out(&self, buffer: &mut [u8]) -> usize
        requires { 276 ≤ length buffer.old }
        ensures length { result ≡ length (held self.now) }
        ensures bytes { buffer.new ≡ held self.now ++ drop (length (held self.now)) buffer.old }
    {
        buffer[..self.len].copy_from_slice(&self.bytes[..self.len]);
        self.len
    }
}
