// Streams in memory.
use curp_io::{MemorySink, MemorySource};
use curp_runner::Status;
use std::alloc::Global;
use std::process::Abort;

/// The numbers of the read and of the write that fail. There is no call of the number 0.
#[derive(Clone, Copy)]
pub(crate) struct Failing {
    pub(crate) read: u64,
    pub(crate) write: u64,
}

pub(crate) const NONE: Failing = Failing { read: 0, write: 0 };

pub(crate) const fn read(call: u64) -> Failing {
    Failing {
        read: call,
        write: 0,
    }
}

pub(crate) const fn write(call: u64) -> Failing {
    Failing {
        read: 0,
        write: call,
    }
}

/// A source of which that read fails.
pub(crate) fn source(rt: &impl Abort, alloc: Global, text: &str, failing: Failing) -> MemorySource {
    MemorySource::new(alloc, text.as_bytes(), &[failing.read]).expect(rt, "no memory")
}

pub(crate) fn sink(rt: &impl Abort, alloc: Global, failing: Failing) -> MemorySink {
    MemorySink::new(alloc, &[failing.write]).expect(rt, "no memory")
}

/// What a run came to.
#[derive(Drop)]
pub(crate) struct Ended {
    pub(crate) status: Status,
    pub(crate) sink: MemorySink,
}

impl Ended {
    pub(crate) fn is(&self, status: Status, text: &str) -> bool {
        self.status == status && self.sink.bytes() == text.as_bytes()
    }

    pub(crate) fn is_flushed(&self) -> bool {
        self.sink.is_flushed()
    }
}
