// What a C program calls: numbers and byte buffers in and out, 0 or the number of a refusal as the answer. host/tavzsumer.h declares them.

#![tactic(auto)]

mod answer;
pub mod protected_packet;
pub mod tps_block;

pub use protected_packet::tavzsumer_protect;
pub use tps_block::tavzsumer_tps;
