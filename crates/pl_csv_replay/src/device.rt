//! How a source or a sink of a case moves bytes.
ghost use Rattle.std.specs.Prelude.{◌<◌, IfOk};

use anyhow::{Result, bail};
use std::alloc::Global;

/// How many bytes a call moves at most, and the numbers of the calls that fail.
#[derive(Drop)]
pub struct Device {
    step: usize,
    fails: Vec<usize>,
}

impl Device {
    /// One that moves all bytes in a call, and does not fail.
    pub fn new(alloc: Global) -> Self {
        Device {
            step: usize::MAX,
            fails: Vec::new(alloc),
        }
    }

    /// The one of these numbers: the step first, and behind it the calls that fail.
    pub fn from_numbers(alloc: Global, numbers: &str) -> Result<Self> {
        let mut device = Device::new(alloc);
        for (place, number) in numbers.split(' ').enumerate() {
            let number = number.parse::<usize>()?;
            if place == 0 {
                device.step = number;
            } else {
                device.fails.push(number)?;
            }
        }
        Ok(device)
    }

    /// How many bytes a call moves at most.
    pub fn step(&self) -> Result<usize>
        ensures { IfOk result (λ step. 0 < step) }
    {
        if self.step == 0 {
            bail!("a step of no bytes");
        }
        Ok(self.step)
    }

    /// The calls that fail.
    pub fn fails(&self) -> &[usize] {
        &self.fails
    }
}
