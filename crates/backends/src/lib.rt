//! What a device is, and how it is reached: the backend interface, a scripted device and a recorder;
//! address spaces, and the adapters between the two.

#![tactic(auto)]

mod access;
mod access_log;
mod adapter;
mod backend;
mod character;
mod chip;
mod pair;
mod place;
mod recorder;
mod script;
mod space;
mod window;
mod worked;

pub use access::{Access, Kind};
pub use access_log::{AccessLog, AccessTable};
pub use adapter::{Adapter, MmioBackend, PioBackend};
pub use backend::Backend;
pub use character::{Character, Counts};
pub use chip::Chip;
pub use pair::Pair;
pub use place::{MmioPlace, Place, PortPlace};
pub use recorder::{Recorder, Recording};
pub use script::Script;
pub use space::Space;
pub use window::Window;
pub use worked::worked_examples;
