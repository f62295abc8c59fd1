// Zones that view TZif files.
#![tactic(auto)]

mod block;
pub mod file_rule;
mod lookup;
pub mod zone_file;
