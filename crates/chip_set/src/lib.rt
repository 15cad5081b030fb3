//! The chips on the chip bus: what they do at each clock, and the access of the slot's owner.
#![tactic(auto)]

mod ahead;
mod blit_registers;
mod bus;
mod chips;
mod fetches;
mod late;
pub mod laws;
mod quiet;
mod turn;

pub use bitplane_dma::FetchRules;
pub use bus::{BlitterClaim, Unit};
pub use chips::Chips;
pub use cpu_bus::TurnBeside;
pub use fetches::{is_clx_ask, is_fetch_ask};
pub use late::LateOwner;
