// The host's random device and its standard output.
use crate::faults::counted;
use kl_store::{Entropy, Failed, Sink};
use std::fs;
use std::io::{self, Read};
use std::rt::Files;

/// The host's random device.
#[derive(Drop)]
pub struct HostEntropy<R: Files + Drop> {
    rt: R,
    faults: u64,
}

impl<R: Files + Drop> HostEntropy<R> {
    /// The random device of this host.
    pub fn new(rt: R) -> Self {
        HostEntropy { rt, faults: 0 }
    }

    fn draw(&self, out: &mut [u8; 32]) -> io::Result<()> {
        fs::open(&self.rt, "/dev/urandom")?.read_exact(out)
    }
}

impl<R: Files + Drop> Entropy for HostEntropy<R> {
    ghost use Rattle.std.specs.Prelude.{None};

    ghost meaning = { λ _. record { left = None } };

    ghost faults = { λ s. s.faults };

    fn fill(&mut self, out: &mut [u8; 32]) -> Result<(), Failed> {
        let done = self.draw(out);
        counted(&mut self.faults, done)
    }
}

/// The standard output of the program.
#[derive(Drop)]
pub struct HostSink<R: Print + Drop> {
    rt: R,
    faults: u64,
}

impl<R: Print + Drop> HostSink<R> {
    /// The standard output of this program.
    pub fn new(rt: R) -> Self {
        HostSink { rt, faults: 0 }
    }
}

impl<R: Print + Drop> Sink for HostSink<R> {
    ghost use Rattle.std.specs.Prelude.{None};

    ghost meaning = { λ _. record { bytes = None } };

    ghost faults = { λ s. s.faults };

    fn write(&mut self, bytes: &[u8]) -> Result<(), Failed> {
        let done = self.rt.write_all(bytes);
        counted(&mut self.faults, done)
    }
}
