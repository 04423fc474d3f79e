//! What is counted.

/// A channel of a link.
#[derive(Clone, Copy, PartialEq, Eq, PartialOrd, Ord)]
pub enum CountedChannel {
    A,
    D,
}

/// Which bytes a partial put gives.
#[derive(Clone, Copy, PartialEq, Eq, PartialOrd, Ord)]
pub enum Shape {
    /// None.
    Empty,
    /// All.
    Full,
    One,
    /// All but one.
    Hole,
    /// The lower half.
    Low,
    /// The upper half.
    High,
    /// Those at even places.
    Even,
    /// Those at odd places.
    Odd,
    Other,
}

/// What a request does to its bytes.
#[derive(Clone, Copy, PartialEq, Eq, PartialOrd, Ord)]
pub enum Access {
    Read,
    Write,
    Atomic,
    /// A prefetch.
    Hint,
}

/// Why a request is denied.
#[derive(Clone, Copy, PartialEq, Eq, PartialOrd, Ord)]
pub enum Cause {
    /// Decoders find no port at its address.
    Nowhere,
    /// They find one, to which its master has no path.
    NoPath,
    /// Its address is no multiple of its size.
    Unaligned,
    /// A part of it lies beyond the range that has its address.
    Beyond,
    /// The slave does not serve the operation or the size; a device may refuse others too.
    Unserved,
}

/// A master, and the port that its requests go to.
#[derive(Clone, Copy, PartialEq, Eq, PartialOrd, Ord)]
pub struct Pair {
    pub master: usize,
    pub port: usize,
}

/// An operation as channel A spells it, and its size. Opcodes and parameters rise in the order of the text.
#[derive(Clone, Copy, PartialEq, Eq, PartialOrd, Ord)]
pub struct Operation {
    pub opcode: u8,
    pub param: u8,
    pub size: u8,
}

/// A thing that a capture may show. Bins stand in the order of the text. That `tools/tlxtools/coverage_text.py` has the same
/// order is read off the declaration.
#[derive(Clone, Copy, PartialEq, Eq, PartialOrd, Ord)]
pub enum Bin {
    /// A request, and whether its address is unaligned.
    Asked(Pair, Operation, bool),
    /// A reply to a request, and whether it is denied.
    Answered(Pair, Operation, bool),
    /// A message of so many beats.
    Beats(Pair, CountedChannel, usize),
    /// A partial put of this size that gives these bytes.
    Mask(Pair, u8, Shape),
    /// A request that begins, and how many of its master are in flight with it.
    InFlight(usize, usize),
    /// A request that begins, and how many of its port are in flight with it.
    AtPort(usize, usize),
    /// A reply that comes before that of an older request of its master, and whether that one goes to another port.
    Overtook(Pair, bool),
    /// A request of a master that begins so many clocks after the last reply to its source.
    Again(usize, u64),
    /// A request that meets another one of its port.
    Contested(usize),
    /// A request of a master that begins with this source of the master's own.
    Source(usize, usize),
    /// A request that this range of a port has.
    Range(usize, usize),
    /// One that has the first byte of this range of a port, or the last one.
    Edge(usize, usize, bool),
    /// A reply of a port that begins so many clocks after its request.
    Latency(usize, u64),
    /// A beat of a message so many clocks after the one before.
    Gap(Pair, CountedChannel, u64),
    /// A denied reply of a port, and why it is denied.
    Refused(usize, Cause),
    /// A request of a master that is narrower than the bus, by its size and the place of its address in a word of the bus.
    Lane(usize, u8, usize),
    /// A request of a port that has a byte in common with the one before it: what that one does, and what it does itself.
    After(usize, Access, Access),
    /// A beat with corrupt data, by the operation and the size of its request, and whether it is one of the reply. Each beat of a
    /// denied reply with data is marked corrupt, and is not counted.
    Corrupt(Pair, Operation, bool),
}
