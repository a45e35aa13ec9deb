//! A gate round each step of an agent.

/// What runs before and after each step of an agent, so that a test can set the order of the steps.
/// The program's own gate is empty.
pub trait Gate: Sync {
    /// Runs before this step of this agent.
    fn before(&self, agent: u32, step: u32);

    /// Runs after this step of this agent.
    fn after(&self, agent: u32, step: u32);
}
