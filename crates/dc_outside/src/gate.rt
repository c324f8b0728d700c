// Where workers pass.

/// A place that each worker passes, by its number, so that a test can have workers meet. Threads share it.
pub trait Gate {
    fn pass(&self, worker: u32);
}

/// Lets every worker through at once.
#[derive(Clone, Copy, Debug)]
pub struct OpenGate;

impl Gate for OpenGate {
    fn pass(&self, _worker: u32) {}
}

#[cfg(test)]
mod tests {
    use super::*;

    fn pass<G: Gate + Sync>(gate: &G) {
        gate.pass(0);
    }

    #[test]
    fn an_open_gate_can_be_shared() {
        pass(&OpenGate);
    }
}
