// The sending half of a port: the packets held until they are acknowledged, and whether they are sent.
ghost use Rattle.std.specs.Prelude.{◌≡◌, length};

use crate::slots::{SEND_SLOTS, Slots};
use crate::window::Window;
use rules::state::Output;

pub mod hearing;
pub mod methods;

// The packets held lie in as many slots from `base` on; after the last slot comes the first. The slots are an array, since the
// library allocates nothing, and no ring of their own counts them, since the window does.
#[derive(Clone, Copy)]
pub struct Sending {
    pub(crate) window: Window,
    base: usize,
    slots: Slots<SEND_SLOTS>,
    pub(crate) output: Output,
    ghost places: { length slots.all ≡ 31 },
}
