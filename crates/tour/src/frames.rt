// What the tour's steps print alike.
use packet::frame::{Kind, classify};
use refusal::Refusal;
use std::io;

// What a step came to, shown by `shown`, or the number by which it was refused.
pub(crate) fn show<T, F: FnOnce(T) -> io::Result<()>>(
    rt: &impl Print,
    step: &str,
    outcome: Result<T, Refusal>,
    shown: F,
) -> io::Result<()>
    requires { F.IsAlwaysCallable shown }
{
    match outcome {
        Ok(value) => shown(value),
        Err(refusal) => println!(rt; "{step}: refused with {}", refusal.number()),
    }
}

// What a frame is.
pub(crate) fn show_kind(rt: &impl Print, step: &str, frame: &[u8]) -> io::Result<()> {
    match classify(frame) {
        Kind::Symbol(_) => println!(rt; "{step}: a symbol"),
        Kind::Packet => println!(rt; "{step}: a sound packet"),
        Kind::Unsound(cause) => println!(rt; "{step}: unsound, cause {}", u8::from(cause)),
    }
}
