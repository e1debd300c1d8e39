//! Standard output and standard error.
ghost use Rattle.std.specs.Prelude.{◌≡◌, ◌<◌, ◌≤◌, ◌^◌, ℕ, IfSome, [], false, length};

use std::io::{ErrorKind, Write};
use xr_run::{Sink, SinkFailed};

/// A writer as a sink. It doesn't tell what it took.
#[derive(Drop)]
pub struct StdSink<W> {
    writer: W,
    faults: u64,
}

impl<W: Write> StdSink<W> {
    pub fn new(writer: W) -> Self
        ensures { result.faults ≡ 0 }
    {
        StdSink { writer, faults: 0 }
    }
}

// How many bytes the writer took, if it took some. It is asked again where a signal came between.
fn write_some<W: Write>(writer: &mut W, bytes: &[u8]) -> Option<usize>
    ensures { IfSome result (λ n. (n ≤ length bytes.now) × (0 < length bytes.now → 0 < n)) }
{
    for _ in 0..u64::MAX {
        match writer.write(bytes) {
            Ok(count) => {
                return if count > 0 || bytes.is_empty() {
                    Some(count)
                } else {
                    None
                };
            }
            Err(e) => {
                if e.kind() != ErrorKind::Interrupted {
                    return None;
                }
            }
        }
    }
    None
}

impl<W: Write> Sink for StdSink<W> {
    ghost tells = { λ s. false };

    ghost taken = { λ s. [] };

    ghost faults = { λ s. s.faults };

    fn put(&mut self, bytes: &[u8]) -> Result<usize, SinkFailed> {
        let faults = self.faults;
        match write_some(&mut self.writer, bytes) {
            Some(count) => Ok(count),
            None => {
                self.faults = faults.saturating_add(1);
                Err(SinkFailed)
            }
        }
    }
}
