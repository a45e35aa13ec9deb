//! The gate of the program.

use opfs_outside::Gate;

/// A gate that lets every step pass.
#[derive(Clone, Copy)]
pub struct OpenGate;

impl Gate for OpenGate {
    fn before(&self, _agent: u32, _step: u32) {}

    fn after(&self, _agent: u32, _step: u32) {}
}
