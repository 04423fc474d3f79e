//! Gates: what a test may hold a run by, to see that its threads run at once.

/// Shared by all threads of a run.
pub trait Gate {
    /// Whether the port's worker, which was rung, may serve now. It is asked again until it says yes.
    fn may_serve(&self, port: usize) -> bool;

    /// A master collected a reply of a port.
    fn collected(&self, master: usize, port: usize);
}

/// The gate that holds nobody.
#[derive(Debug, Clone, Copy)]
pub struct OpenGate;

impl Gate for OpenGate {
    fn may_serve(&self, _port: usize) -> bool {
        true
    }

    fn collected(&self, _master: usize, _port: usize) {}
}

/// How often a gate is asked at one ring.
const MAX_ASKED: u32 = 1_000_000;

/// Asks a gate that has said no, until it says yes. False where it never did.
pub(crate) fn opens<G: Gate>(gate: &G, port: usize) -> bool {
    (1..MAX_ASKED).any(|_| gate.may_serve(port))
}
