//! How nodes are computed.
ghost use Rattle.std.specs.Prelude.{◌≡◌, ◌≤◌, ◌&&◌, is_some, nat_le, IfSome};

/// How many workers compute the nodes of a plan, 1 to 64, and into pieces of how many positions an axis is cut, at least 1.
#[derive(Clone, Copy)]
pub struct Settings {
    pub workers: u32,
    pub chunk: u64,
    pub ghost some: { 1 ≤ workers },
    pub ghost few: { workers ≤ 64 },
    pub ghost pieces: { 1 ≤ chunk },
}

impl Settings {
    /// One worker, and pieces of 256 positions.
    pub fn new() -> Settings
        ensures workers { result.workers ≡ 1 }
        ensures chunk { result.chunk ≡ 256 }
    {
        Settings {
            workers: 1,
            chunk: 256,
        }
    }

    /// These settings, where they are within their bounds.
    pub fn of(workers: u32, chunk: u64) -> Option<Settings>
        ensures within { is_some result ≡ (nat_le 1 workers && (nat_le workers 64 && nat_le 1 chunk)) }
        ensures taken { IfSome result (λ s. (s.workers ≡ workers) × (s.chunk ≡ chunk)) }
    {
        if 1 <= workers && workers <= 64 && 1 <= chunk {
            Some(Settings { workers, chunk })
        } else {
            None
        }
    }
}
