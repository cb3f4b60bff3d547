//! One hart of RV64IA: what it needs next, and what becomes of it when the need is met.
//!
//! The module `hart` keeps the table of needs (`specs/Hart.antt`) and of the operations of RV64IA
//! (`specs/Effect.antt`). Below stand the names of the machine, the lines of memory, the instruction
//! words and the loaded program that a hart runs (`og_image`); above, flat memory and the machine.
#![tactic(auto)]

mod compute;
mod decoded;
pub mod hart;
#[cfg(test)]
mod tests;
#[cfg(test)]
mod vectors;
mod work;
