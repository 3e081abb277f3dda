//! Wires whose output is a file, beside a file that keeps the state of a run. That file is replaced whole: whenever a crash comes, it
//! leaves the file as it was or as it is to be.
#![tactic(auto)]

mod files;
mod folder;
mod laws;
mod medium;
mod medium_memory;
mod memory;
mod opening;
mod replacing;
mod wire;

pub use files::FileWire;
pub use folder::{FolderMedium, folder_of};
pub use laws::{crashes_in_memory_may_be, replacements_stay_whole};
pub use medium::{Medium, MediumFailed, Name, ReadFault, counted};
pub use medium_memory::MemoryMedium;
pub use memory::MemoryFileWire;
pub use opening::open;
pub use replacing::replace;
pub use wire::KeptWire;
