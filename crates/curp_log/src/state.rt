//! What a log means: the store, the reply table, the owned hashes, and the last migration that was given.
ghost use Rattle.std.specs.Prelude.{◌≡◌, ◌+◌, ◌<◌, ◌≤◌, ◌++◌, ◌∷◌, [], true, length, vec_capacity, vec_len, Some, OnOk, IfOk};
ghost use Rattle.std.specs.FinMap as map;
ghost use Rattle.std.specs.List.{filter};
ghost use Rattle.curp_cmd.specs.Entry.{items_of, pairs_put};
ghost use Rattle.curp_cmd.specs.Migration.{package_len};
ghost use Rattle.curp_cmd.specs.Store.{applied, with_pairs};
ghost use Rattle.curp_range.specs.Spans.{is_covered};
ghost use Rattle.curp_model.specs.Log.{after_entry, after_give, after_op, after_take, fits_at, is_pair_in, log_opening};
ghost use Rattle.curp_model.specs.Table.{check};
ghost use Rattle.curp_model.specs.declared.Check.TheVariants.{New};
ghost use Rattle.curp_log.specs.Ops.{answer_of};
ghost use Rattle.curp_log.specs.State.{meant_by, room_in, untaken, without_pairs};

use curp_base::NoMemory;
use curp_cmd::{Answer, Command, Entry, Key, Package, Request, Store, Value};
use curp_range::Ranges;
use curp_rifl::Table;
use std::alloc::Global;

/// The last migration that was given, and the index of its entry.
#[derive(Clone, Copy, PartialEq, Eq)]
pub struct LatestGive {
    pub migration: u32,
    pub index: u64,
}

/// What a log means, but for the last package taken, which stands in the log.
pub struct State {
    pub store: Store,
    pub table: Table,
    pub ranges: Ranges,
    pub given: Option<LatestGive>,
}

impl Drop for State {
    fn drop(self) {
        let State {
            store: _,
            table: _,
            ranges: _,
            given: _,
        } = self;
    }
}

impl State {
    /// Before any entry, with the hashes from `lo` to `hi`.
    pub fn begin(alloc: Global, lo: u64, hi: u64) -> Result<State, NoMemory>
        requires { lo ≤ hi }
        ensures { IfOk result (λ state. meant_by state ≡ log_opening lo hi) }
    {
        let ranges = Ranges::new(alloc, lo, hi)?;
        Ok(State {
            store: Store::new(alloc),
            table: Table::new(alloc),
            ranges,
            given: None,
        })
    }

    /// Makes room for so many units.
    pub fn reserve(&mut self, units: u64) -> Result<(), NoMemory>
        ensures means { meant_by self.new ≡ meant_by self.old }
        ensures room { OnOk result (units ≤ room_in self.new) }
        ensures kept { room_in self.old ≤ room_in self.new }
    {
        self.store.reserve(units)?;
        self.table.reserve(units)?;
        self.ranges.reserve(units)
    }

    /// Does what an entry with that index says, which fits, and adds the answer to an Op behind the others.
    #[tactic(auto, unfolding(curp_model::specs::Log::after_entry))]
    pub fn apply(&mut self, index: u64, entry: &Entry, answers: &mut Vec<Option<Answer>>)
        requires room { 1 + items_of entry.now ≤ room_in self.old }
        requires fits { fits_at (meant_by self.old) entry.now ≡ true }
        requires spare { vec_len answers.old < vec_capacity answers.old }
        ensures answer { answers.new.items ≡ answers.old.items ++ answer_of self.old.store.map (Some entry.now) ∷ [] }
        ensures capacity { vec_capacity answers.new ≡ vec_capacity answers.old }
        ensures means { meant_by self.new ≡ untaken (after_entry (meant_by self.old) index entry.now) }
        ensures room { room_in self.old ≤ room_in self.new + (1 + items_of entry.now) }
    {
        let answer = match entry {
            Entry::Op {
                request,
                acknowledge,
            } => Some(self.execute(index, request, *acknowledge)),
            Entry::Take { package, .. } => {
                self.take(package);
                None
            }
            Entry::Give { migration, package } => {
                self.give(index, *migration, package);
                None
            }
            Entry::Expire { client } => {
                self.table.expire(*client);
                None
            }
        };
        answers.push_reserved(answer);
    }

    fn execute(&mut self, index: u64, request: &Request, acknowledge: u32) -> Answer
        requires room { 1 + pairs_put request.now.command ≤ room_in self.old }
        requires new { check self.old.table.table request.now.id ≡ New }
        ensures answer { result ≡ (applied self.old.store.map request.now.command).answer }
        ensures means { meant_by self.new ≡ after_op (meant_by self.old) index request.now acknowledge }
        ensures room { room_in self.old ≤ room_in self.new + (1 + pairs_put request.now.command) }
    {
        let answer = self.store.apply(&request.command);
        let noted = copy_of(&answer);
        self.table.finish(request.id, noted, index, acknowledge);
        answer
    }

    // A range leaves, with its pairs.
    fn take(&mut self, taken: &Package)
        requires room { 1 + length taken.now.pairs ≤ room_in self.old }
        requires covered { is_covered self.old.ranges.spans taken.now.lo taken.now.hi ≡ true }
        requires pairs { taken.now.pairs
            ≡ filter (is_pair_in taken.now.lo taken.now.hi) (map.entries self.old.store.map) }
        ensures means { meant_by self.new ≡ untaken (after_take (meant_by self.old) 0 0 taken.now) }
        ensures room { room_in self.old ≤ room_in self.new + (1 + length taken.now.pairs) }
    {
        remove_keys(&mut self.store, taken.pairs.as_slice());
        self.ranges.take_out(taken.lo, taken.hi).unwrap();
    }

    // A range comes, with its pairs and what is kept for clients.
    fn give(&mut self, index: u64, migration: u32, given: &Package)
        requires { 1 + package_len given.now ≤ room_in self.old }
        ensures means { meant_by self.new ≡ after_give (meant_by self.old) index migration given.now }
        ensures room { room_in self.old ≤ room_in self.new + (1 + package_len given.now) }
    {
        put_pairs(&mut self.store, given.pairs.as_slice());
        self.table.merge(&given.table, index);
        self.ranges.unite(given.lo, given.hi);
        self.given = Some(LatestGive { migration, index });
    }
}

fn copy_of(answer: &Answer) -> Answer
    ensures { result ≡ answer.now }
{
    *answer
}

/// Removes the keys of the pairs.
#[tactic(auto, unfolding(curp_cmd::specs::Store::applied))]
fn remove_keys(store: &mut Store, pairs: &[(Key, Value)])
    requires { length pairs.now ≤ store.old.spare }
    ensures map { store.new.map ≡ without_pairs store.old.map pairs.now }
    ensures spare { store.old.spare ≤ store.new.spare + length pairs.now }
{
    for (key, _) in pairs {
        let _was = store.apply(&Command::Delete(*key));
    }
}

/// Gives each key its value.
#[tactic(auto, unfolding(curp_cmd::specs::Store::applied))]
fn put_pairs(store: &mut Store, pairs: &[(Key, Value)])
    requires { length pairs.now ≤ store.old.spare }
    ensures map { store.new.map ≡ with_pairs store.old.map pairs.now }
    ensures spare { store.old.spare ≤ store.new.spare + length pairs.now }
{
    for (key, value) in pairs {
        let _done = store.apply(&Command::Put(*key, *value));
    }
}
