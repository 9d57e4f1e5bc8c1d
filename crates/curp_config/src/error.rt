use curp_msg::Numbered;
use thiserror::Error;

/// Why the manager orders no recovery.
#[derive(Clone, Copy, Debug, PartialEq, Eq, Error)]
pub enum RecoverError {
    /// There is no partition of that number.
    #[error("there is no such partition")]
    NoPart,
    /// The partition's adopted list has no backup at that place, counted from 1.
    #[error("the partition has no backup at place {place}")]
    NoBackup { place: u32 },
    /// The partition's adopted list has no witness at that place, counted from 1.
    #[error("the partition has no witness at place {place}")]
    NoWitness { place: u32 },
}

/// Why the manager orders no replacement.
#[derive(Clone, Copy, Debug, PartialEq, Eq, Error)]
pub enum ReplaceError {
    /// There is no partition of that number.
    #[error("there is no such partition")]
    NoPart,
    /// The partition's adopted list has no node at that place, counted from 1.
    #[error("the partition has no node at that place")]
    NoPlace,
    /// The partition is being recovered, by an attempt of that epoch.
    #[error("the partition is being recovered, at epoch {epoch}")]
    Recovering { epoch: u32 },
    /// The partition is being given lists of that version.
    #[error("the partition is being given lists of version {version}")]
    Replacing { version: u32 },
}

/// Why the manager lets no range move.
#[derive(Clone, Copy, Debug, PartialEq, Eq, Error)]
pub enum MigrateError {
    /// The first hash is above the last.
    #[error("the first hash is above the last")]
    BadRange,
    /// There is no partition of that number.
    #[error("there is no such partition")]
    NoPart,
    /// The partition owns all of the range.
    #[error("the partition owns all of the range already")]
    SameOwner,
    /// No one partition owns all of the range.
    #[error("no one partition owns all of the range")]
    SplitOwner,
    /// The migration of that number isn't finished.
    #[error("migration {id} isn't finished")]
    Moving { id: u32 },
}

/// The manager declares no client gone: there is no client of that number.
#[derive(Clone, Copy, Debug, PartialEq, Eq, Error)]
#[error("there is no such client")]
pub struct NoClient;

impl Numbered for RecoverError {
    ghost use Rattle.curp_config.specs.Refusals.{recover_number, recover_numbers_refuse};

    ghost number_of = { recover_number };

    ghost numbers_refuse = { recover_numbers_refuse };

    fn number(self) -> u8 {
        match self {
            RecoverError::NoPart => 1,
            RecoverError::NoBackup { .. } => 2,
            RecoverError::NoWitness { .. } => 3,
        }
    }
}

impl Numbered for ReplaceError {
    ghost use Rattle.curp_config.specs.Refusals.{replace_number, replace_numbers_refuse};

    ghost number_of = { replace_number };

    ghost numbers_refuse = { replace_numbers_refuse };

    fn number(self) -> u8 {
        match self {
            ReplaceError::NoPart => 1,
            ReplaceError::NoPlace => 2,
            ReplaceError::Recovering { .. } => 3,
            ReplaceError::Replacing { .. } => 4,
        }
    }
}

impl Numbered for MigrateError {
    ghost use Rattle.curp_config.specs.Refusals.{migrate_number, migrate_numbers_refuse};

    ghost number_of = { migrate_number };

    ghost numbers_refuse = { migrate_numbers_refuse };

    fn number(self) -> u8 {
        match self {
            MigrateError::BadRange => 1,
            MigrateError::NoPart => 2,
            MigrateError::SameOwner => 3,
            MigrateError::SplitOwner => 4,
            MigrateError::Moving { .. } => 5,
        }
    }
}

impl Numbered for NoClient {
    ghost use Rattle.curp_config.specs.Refusals.{expire_number, expire_numbers_refuse};

    ghost number_of = { expire_number };

    ghost numbers_refuse = { expire_numbers_refuse };

    fn number(self) -> u8 {
        1
    }
}
