/// How far a recovery is.
#[derive(Clone, Copy, Debug, PartialEq, Eq)]
pub enum Phase {
    /// It waits for the log of the backup, or for the requests of the witness, or for both.
    Asking,
    /// It waits for the fresh backups to store the replayed log.
    Storing,
    /// It waits to be adopted.
    Waiting,
}
