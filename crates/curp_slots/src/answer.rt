use curp_msg::Reason;

/// What a witness answers to a request.
#[derive(Clone, Copy, PartialEq, Eq)]
pub enum RecordAnswer {
    /// It holds the request, or held one with that id already.
    Accepted,
    /// It doesn't hold the request, for that reason.
    Rejected(Reason),
}
