// Local times of instants in a zone, and the instants of local times.
#![tactic(auto)]

mod landing;
pub mod local_time;
pub mod meeting;
mod window;
pub mod zone_at;
mod zone_questions;
