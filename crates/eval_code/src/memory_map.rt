//! Where the parts of a firmware are in memory.

/// The addresses of a firmware's parts.
#[derive(Clone, Copy)]
pub struct MemoryMap {
    /// The first instruction, whose address is in the reset vector.
    pub code: u16,
    /// Where the code waits for READY.
    pub wait: u16,
    /// The instruction whose address is in the interrupt vector.
    pub interrupt: u16,
    /// The code that answers a sample.
    pub eval: u16,
    /// The tables of the input terms, four bytes each.
    pub tables: u16,
    /// The singletons' bytes.
    pub singletons: u16,
    /// The weights of the conjunctions, for REVW only.
    pub weights: u16,
    /// The rule list.
    pub rules: u16,
    /// READY, which is nonzero while a sample waits for its answer.
    pub sample_flag: u16,
    /// Where a sample's bytes are put from outside: at the inputs' bytes, unless the code copies them there.
    pub samples: u16,
    /// The inputs' bytes.
    pub inputs: u16,
    /// The outputs' bytes.
    pub outputs: u16,
    /// The degrees of terms, complements and conclusions.
    pub slots: u16,
}

impl MemoryMap {
    /// The memory map of a firmware that stands alone.
    pub const MAIN: MemoryMap = MemoryMap {
        code: 0xC000,
        wait: 0xC008,
        interrupt: 0xC015,
        eval: 0xC016,
        tables: 0xD000,
        singletons: 0xD200,
        weights: 0xD300,
        rules: 0xD800,
        sample_flag: 0x1000,
        samples: 0x1001,
        inputs: 0x1001,
        outputs: 0x1010,
        slots: 0x1100,
    };
}
