//! The top call of the gateway: from the words of a command to logs, a report and a status.
#![tactic(auto)]

mod address;
mod boxes;
mod check;
mod config;
mod feed;
mod files;
mod form;
mod forward;
mod gate;
mod gateway;
mod law;
mod machines;
mod notes;
mod output;
mod plan;
mod play;
mod played;
mod results;
mod say;
mod setup;
mod start;
mod status;
mod top;
mod words;

pub use gate::{Gate, OpenGate};
pub use law::output_law;
pub use status::{ConfigCause, FileRole, Form, Status, Summary, Which};
pub use top::run;
