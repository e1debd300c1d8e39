//! Which calls of the devices fail.
use anyhow::{Context, Result, bail};
use std::alloc::Global;

/// The numbers of the calls that fail, counted from 1, of a store and of the two sinks.
#[derive(Drop)]
pub struct Failing {
    pub store: Vec<u64>,
    pub output: Vec<u64>,
    pub error: Vec<u64>,
}

impl Failing {
    /// No call fails.
    pub fn none(alloc: Global) -> Failing {
        Failing {
            store: Vec::new(alloc),
            output: Vec::new(alloc),
            error: Vec::new(alloc),
        }
    }

    /// Takes `store N`, `output N` or `error N`.
    pub fn take(&mut self, text: &str) -> Result<()> {
        let (device, number) = text.split_once(" ").context("no number of a call")?;
        let number = number.parse::<u64>().ok().context("no number of a call")?;
        match device {
            "store" => self.store.push(number)?,
            "output" => self.output.push(number)?,
            "error" => self.error.push(number)?,
            _ => bail!("no such device"),
        }
        Ok(())
    }
}
