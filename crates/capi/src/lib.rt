// The roll-up for programs in other languages: functions on numbers and slices. `capi_c` exports them.
#![tactic(auto)]

pub mod calls;
mod folding;
pub mod heads;
