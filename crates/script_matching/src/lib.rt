//! Whether a text is JSON with the same data as another, or JSON of which another is a part.
#![tactic(auto)]

mod compared;
mod fits;
mod likely;
mod placing;
mod told;

pub use compared::{is_part, is_same, places};
pub use fits::have_same_data;
