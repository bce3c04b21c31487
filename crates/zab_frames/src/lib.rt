//! The bytes on the links between servers: Zab's messages as frames, written and read.
//!
//! A frame is a length, two checksums and the contents (`specs/Frames.antt`); the contents are a
//! message (`specs/Messages.antt`). A [`Decoder`] takes a stream's bytes in any chunks.
#![tactic(auto)]

mod call_writers;
mod calls;
mod decoder;
mod entries;
mod fault;
mod field_writers;
mod fields;
mod frame;
mod kinds;
mod laws;
mod messages;
mod writing;

pub use decoder::Decoder;
pub use fault::{BadFrame, DecodeFault, FrameFault};
pub use frame::{HEADER, first_frame, write_frame};
pub use laws::{decoding_composes, decoding_is_exact, frames_are_of_one};
pub use writing::write_message;
