//! Which links of a crossbar are watched.

/// The links that are watched.
#[derive(Debug, Clone, Copy, PartialEq, Eq)]
pub enum Links {
    /// All masters' and all ports', which are judged together, but for ports that the system takes out.
    Both,
    /// The masters' alone.
    Masters,
    /// The ports' alone.
    Ports,
    /// All masters' and all ports'. The masters' are judged together, and each port's by itself.
    Each,
}
