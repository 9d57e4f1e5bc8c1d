//! Numbers, names, keys and values.
use crate::{Same, all_same};
use curp_cmd::{Key, NodeId, NodeKind, Pairs, RequestId, Value};
use curp_range::Spans;

impl Same for bool {
    fn same(&self, other: &bool) -> bool {
        *self == *other
    }
}

impl Same for u32 {
    fn same(&self, other: &u32) -> bool {
        *self == *other
    }
}

impl Same for u64 {
    fn same(&self, other: &u64) -> bool {
        *self == *other
    }
}

impl Same for NodeKind {
    fn same(&self, other: &NodeKind) -> bool {
        *self == *other
    }
}

impl Same for NodeId {
    fn same(&self, other: &NodeId) -> bool {
        self.kind.same(&other.kind) && self.number == other.number
    }
}

impl Same for RequestId {
    fn same(&self, other: &RequestId) -> bool {
        self.client == other.client && self.seq == other.seq
    }
}

impl Same for Key {
    fn same(&self, other: &Key) -> bool {
        *self == *other
    }
}

impl Same for Value {
    fn same(&self, other: &Value) -> bool {
        *self == *other
    }
}

impl Same for Pairs {
    fn same(&self, other: &Pairs) -> bool {
        all_same(self.as_slice(), other.as_slice())
    }
}

impl Same for Spans {
    fn same(&self, other: &Spans) -> bool {
        all_same(self.as_slice(), other.as_slice())
    }
}
