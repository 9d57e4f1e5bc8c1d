//! The worked examples, computed on the definitions. There is no code here: an example is a clause of a function with
//! nothing in it, and says that the run of the script has the example's text, whole.
//!
//! The examples are from outside: 36 scripts, of updates, conflicts, reads, recoveries, replacements, migrations and
//! refused steps. They stand in `examples`, each with its output, and `examples/to_specs.py` makes the specs of this
//! crate of them. A clause for each says that the definitions of `curp_model` and `curp_report` give the script exactly
//! the output. Of a longer script, which fills a world with messages, the first 576 of 914 steps are one more; its
//! steps and its text are written as functions over numbers. Scripts whose lines the grammar refuses are cases
//! alone (`cases/examples`).
#![tactic(auto)]

ghost use Rattle.curp_rows.specs.Example.{Plays};
ghost use Rattle.curp_rows.specs.HeaderAlone.{header_alone};
ghost use Rattle.curp_rows.specs.OnePut.{one_put};
ghost use Rattle.curp_rows.specs.ThreeWitnesses.{three_witnesses};
ghost use Rattle.curp_rows.specs.TwoBackups.{two_backups};
ghost use Rattle.curp_rows.specs.SyncedPut.{synced_put};
ghost use Rattle.curp_rows.specs.UpdateDeliveredOften.{update_delivered_often};
ghost use Rattle.curp_rows.specs.LongestKey.{longest_key};
ghost use Rattle.curp_rows.specs.Overflow.{overflow};
ghost use Rattle.curp_rows.specs.Conflict.{conflict};
ghost use Rattle.curp_rows.specs.FullSet.{full_set};
ghost use Rattle.curp_rows.specs.FullSetAndSync.{full_set_and_sync};
ghost use Rattle.curp_rows.specs.CollectionAndSuspects.{collection_and_suspects};
ghost use Rattle.curp_rows.specs.ReadByARound.{read_by_a_round};
ghost use Rattle.curp_rows.specs.ReadAtASupersededMaster.{read_at_a_superseded_master};
ghost use Rattle.curp_rows.specs.ReadInOneRoundTrip.{read_in_one_round_trip};
ghost use Rattle.curp_rows.specs.LateReadAtASupersededMaster.{late_read_at_a_superseded_master};
ghost use Rattle.curp_rows.specs.ReadOfAnUnsyncedKey.{read_of_an_unsynced_key};
ghost use Rattle.curp_rows.specs.ReadAtAnIdleWitness.{read_at_an_idle_witness};
ghost use Rattle.curp_rows.specs.RecoveryReplays.{recovery_replays};
ghost use Rattle.curp_rows.specs.RetryAfterRecovery.{retry_after_recovery};
ghost use Rattle.curp_rows.specs.LateReplyOfASupersededMaster.{late_reply_of_a_superseded_master};
ghost use Rattle.curp_rows.specs.ReplayKeepsAnAcknowledgedRequest.{replay_keeps_an_acknowledged_request};
ghost use Rattle.curp_rows.specs.AppendBelowTheFence.{append_below_the_fence};
ghost use Rattle.curp_rows.specs.ReplaceAWitness.{replace_a_witness};
ghost use Rattle.curp_rows.specs.RecoveryGivesUpAReplacement.{recovery_gives_up_a_replacement};
ghost use Rattle.curp_rows.specs.StoppedBackupReplaced.{stopped_backup_replaced};
ghost use Rattle.curp_rows.specs.MigrationThereAndBack.{migration_there_and_back};
ghost use Rattle.curp_rows.specs.PackageHasFirstNumbers.{package_has_first_numbers};
ghost use Rattle.curp_rows.specs.SplitMulti.{split_multi};
ghost use Rattle.curp_rows.specs.NoMessage.{no_message};
ghost use Rattle.curp_rows.specs.StopTheManager.{stop_the_manager};
ghost use Rattle.curp_rows.specs.NoNode.{no_node};
ghost use Rattle.curp_rows.specs.StoppedNode.{stopped_node};
ghost use Rattle.curp_rows.specs.NineInvocations.{nine_invocations};
ghost use Rattle.curp_rows.specs.RetryOfNothing.{retry_of_nothing};
ghost use Rattle.curp_rows.specs.ExpiredClient.{expired_client};
ghost use Rattle.curp_rows.specs.GrowingRounds.{growing_rounds};

/// Updates: one round trip where nothing is in the way, else a round of appends, and each once however often it comes.
pub fn updates_run()
    ensures header_alone { Plays header_alone }
    ensures one_put { Plays one_put }
    ensures three_witnesses { Plays three_witnesses }
    ensures two_backups { Plays two_backups }
    ensures synced_put { Plays synced_put }
    ensures update_delivered_often { Plays update_delivered_often }
    ensures longest_key { Plays longest_key }
    ensures overflow { Plays overflow }
{}

/// Updates that touch the same key, or that a witness has no place for, and what a witness still holds when they are
/// collected.
pub fn conflicts_run()
    ensures conflict { Plays conflict }
    ensures full_set { Plays full_set }
    ensures full_set_and_sync { Plays full_set_and_sync }
    ensures collection_and_suspects { Plays collection_and_suspects }
{}

/// Reads: by a round of empty appends, and at a master that another one has followed.
pub fn reads_run()
    ensures read_by_a_round { Plays read_by_a_round }
    ensures read_at_a_superseded_master { Plays read_at_a_superseded_master }
{}

/// Reads that are asked in one round trip: completed so, also at a master that another one has followed, or else by a
/// round of appends.
pub fn quick_reads_run()
    ensures read_in_one_round_trip { Plays read_in_one_round_trip }
    ensures late_read_at_a_superseded_master { Plays late_read_at_a_superseded_master }
    ensures read_of_an_unsynced_key { Plays read_of_an_unsynced_key }
    ensures read_at_an_idle_witness { Plays read_at_an_idle_witness }
{}

/// Recoveries: what is replayed, what is retried, and what a master that another one has followed still says.
pub fn recoveries_run()
    ensures recovery_replays { Plays recovery_replays }
    ensures retry_after_recovery { Plays retry_after_recovery }
    ensures late_reply_of_a_superseded_master { Plays late_reply_of_a_superseded_master }
    ensures replay_keeps_an_acknowledged_request { Plays replay_keeps_an_acknowledged_request }
    ensures append_below_the_fence { Plays append_below_the_fence }
{}

/// Replacements of a witness and of a backup.
pub fn replacements_run()
    ensures replace_a_witness { Plays replace_a_witness }
    ensures recovery_gives_up_a_replacement { Plays recovery_gives_up_a_replacement }
    ensures stopped_backup_replaced { Plays stopped_backup_replaced }
{}

/// Migrations of a range, and what goes with it.
pub fn migrations_run()
    ensures migration_there_and_back { Plays migration_there_and_back }
    ensures package_has_first_numbers { Plays package_has_first_numbers }
    ensures split_multi { Plays split_multi }
{}

/// What is refused, and what changes nothing.
pub fn refusals_run()
    ensures no_message { Plays no_message }
    ensures stop_the_manager { Plays stop_the_manager }
    ensures no_node { Plays no_node }
    ensures stopped_node { Plays stopped_node }
    ensures nine_invocations { Plays nine_invocations }
    ensures retry_of_nothing { Plays retry_of_nothing }
    ensures expired_client { Plays expired_client }
{}

/// A longer run, with many clients and many messages.
pub fn long_run()
    ensures growing_rounds { Plays growing_rounds }
{}
