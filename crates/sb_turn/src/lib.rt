//! A ticket lock round a value that stands for a history, which every pass through the lock knows.
#![tactic(auto)]

mod bell;
mod entrance;
mod event;
mod exit;
mod held;
mod lineage;
mod opening;
mod pass;
mod rule;
mod stands;
mod step;
mod turn;
mod view;

pub use bell::Bell;
pub use event::Event;
pub use held::Held;
pub use pass::Pass;
pub use stands::Stands;
pub use turn::Turn;
pub use view::{Stage, View};
