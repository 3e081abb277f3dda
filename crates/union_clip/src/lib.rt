//! The operators of a Union and of a Clip.
#![tactic(auto)]

mod clip;
mod operating;
mod sides;
mod sweep;
mod union;

pub use clip::{Clip, new_clip};
pub use sides::ClipSides;
pub use union::Union;
