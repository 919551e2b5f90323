//! How an OCF resource agent is called: its program, its arguments and its environment.
#![tactic(auto)]

mod invocation;
mod key;
mod launches;
pub mod laws;
mod meta_variables;
mod site;
mod text;
mod variables;

pub use invocation::{Invocation, agent_file};
pub use key::op_key;
pub use launches::{Instance, Launch, LaunchOf, launch, launch_meta};
pub use site::Site;
pub use text::{Text, ascii};
