#![tactic(auto)]

mod analyzer;
mod counting;
mod declaring;
mod exports;
mod fault;
mod leaving;
mod notes;
mod reference;
mod scope;
mod visit;

pub use counting::count;
pub use declaring::fill_declared;
pub use fault::CountFault;
