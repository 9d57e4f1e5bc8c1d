//! What holds after every step of every script: each step keeps what nodes and messages keep (`Invariant`, in
//! `curp_facts`). This is a part of the proof of the laws of `curp_law_runs` and `curp_law_linear`, and has no law of its
//! own; `proofs/Gives.antt` has what others cite of it. What stands in `proofs/`, by subject:
//!
//! - **Logs, tables, ranges, packages, replays and values at one hash**, which need no world: `Logs`, `Pushed`, `Records`,
//!   `Noted`, `Standings`, `Tables`, `Firsts`, `Completed`, `Ranges`, `Migrations`, `Taken`, `GivesFit`, `Packages`,
//!   `Behind`, `Untouched`, `Values`, `LogValues`, `Stores`, `Early`, `Replayed`, `Replays`, `Frozen`, `Reaches`.
//! - **Nothing is taken back**: one step of any world leaves messages, marks, histories, logs of backups, fences, epochs
//!   and numbers as they were or with more (`Grows`), with no premise: `..Grow` for each kind of node, `WorldsGrow`,
//!   `After`, `Deeds`, `Switches`, `Reached`.
//! - **What the manager's numbers keep**: the shape, the names of nodes, which lists were given, ready and adopted, that
//!   there is one master an epoch, that no node is in two lists, and who says what to whom: `NumberedLists`, `Named`,
//!   `Later`, `Moves`, `Keeps`, `Homes`; `Adoptions`, `Orders`, `Replacements`, `..Names` for what the manager does,
//!   `Says`, `Quiet`, `Fits`, `..Fit`, `Servings`, `Recoverings` for what is said; `Runs`, `Laws`.
//! - **What one input does**, for every input of every world: to a backup, a witness and a client (`..Effects`,
//!   `HeldApart`, `Numbers`, `Evidence`, `PendingLists`, `Histories`, `ClientLater`, `Brought`); what it leaves of a master
//!   in every stage, and what the master says then (`Inputs`, `Serving`, `Updates`, `Captures`, `Suspects`, `Ordered`,
//!   `Relisting`, `Migrating`, `Acknowledging`, `Settled`, `Synced`, `Clean`, `Parts`, `Recovering`, `MasterLists`).
//! - **What is said, and what a node has that doesn't move, stays so** in every step: `Words`, `Entries`, `Replies`,
//!   `Prepared`, `Said`, `Nodes`, `..Stay`.
//! - **The induction**: `Opened` has the opening, `Clients`, `Backups`, `Witnesses`, `Masters..` and `Managers..` what an
//!   input to a node keeps, `..Steps` a step of one, `Known`, `Moved`, `Others` the nodes that don't move, `Cases` what a
//!   step does by the node that it gives an input, and `Steps` the induction (`known_step`, `along`).
#![tactic(auto)]
