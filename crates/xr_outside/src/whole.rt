//! Writes a whole piece to a sink.
ghost use Rattle.std.specs.Prelude.{◌≡◌, ◌++◌, ℕ, take, IsTrue, OnOk, OnErr};
ghost use Rattle.xr_outside.specs.Outside.{Counted};

use crate::outside::{Sink, SinkFailed};

/// Writes all of a piece. After a failure the sink has taken a front of it. It takes no memory.
pub fn write_all<K: Sink>(sink: &mut K, bytes: &[u8]) -> Result<(), SinkFailed>
    ensures ok { IsTrue (K.tells sink.old) → OnOk result (K.taken sink.new ≡ K.taken sink.old ++ bytes.now) }
    ensures err { IsTrue (K.tells sink.old) → OnErr result ((k : ℕ) × (K.taken sink.new ≡ K.taken sink.old ++ take k bytes.now)) }
    ensures tells { K.tells sink.new ≡ K.tells sink.old }
    ensures counted { Counted (K.faults sink.old) (K.faults sink.new) result }
{
    let mut at = 0;
    while at < bytes.len() {
        let (_, rest) = bytes.split_at(at);
        match sink.put(rest) {
            Ok(count) => at += count,
            Err(failed) => return Err(failed),
        }
    }
    Ok(())
}
