//! The streams that a run reads and writes.

/// The streams of a run. At first each is as its owner made it. Afterwards it is as the run left it.
#[derive(Debug, Drop)]
pub struct Channels<R, W, V, H> {
    /// The data for `write` and `writeb` lines.
    pub input: R,
    /// The writer for the bytes of `read` and `readb` lines.
    pub out: W,
    /// The writer for the report.
    pub report: V,
    /// The observer of each turn of the port.
    pub watch: H,
}
