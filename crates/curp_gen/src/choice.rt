// Which step comes next in a script that is being made.
use crate::commands::made_command;
use crate::draws::{pick, pick_message, pick_to};
use crate::maker::Maker;
use curp_base::{NoMemory, Shared};
use curp_client::MOST_PENDING;
use curp_msg::Step;
use rand_pcg::Pcg32;

/// How many hashes have the same first byte.
const HASHES_OF_BYTE: u64 = 1 << 56;

/// A step, and the number of the message that comes next after it.
#[derive(Drop)]
pub(crate) struct Choice {
    pub(crate) step: Step,
    pub(crate) cursor: u64,
}

impl Maker {
    ghost use Rattle.std.specs.Prelude.{◌≡◌, ◌≤◌, length, IfOk};
    ghost use Rattle.curp_gen.specs.Draws.{pick_to};
    ghost use Rattle.curp_gen.specs.Making as making;

    /// The next step.
    #[tactic(auto, unfolding(crate::specs::Making::choice))]
    pub(crate) fn choice(&self, words: &mut Pcg32) -> Result<Choice, NoMemory>
        ensures { IfOk result (λ chosen. (chosen, words.new) ≡ making.choice self.now words.old) }
    {
        if self.is_recovery_due() {
            return Ok(self.recovery(words));
        }
        let kind = pick(words, 64);
        self.choice_by(kind, words)
    }

    // A step of one of 64 kinds, most of which deliver.
    fn choice_by(&self, kind: u32, words: &mut Pcg32) -> Result<Choice, NoMemory>
        ensures { IfOk result (λ chosen. (chosen, words.new) ≡ making.choice_by self.now kind words.old) }
    {
        Ok(match kind {
            0..=3 => return self.invocation(words),
            4 | 5 => self.synchronization(words),
            6 | 7 => self.collection(words),
            8 => self.fetching(words),
            9 => self.retrial(words),
            10 => self.keeping(Step::Nudge),
            11 => self.migration(words),
            _ => self.delivery(words),
        })
    }

    // A step that leaves the cursor where it is.
    fn keeping(&self, step: Step) -> Choice
        ensures { result ≡ making.keeping self.now step }
    {
        Choice {
            step,
            cursor: self.cursor(),
        }
    }

    // ---- deliveries

    // A message comes; where none was ever sent, the manager is nudged.
    #[tactic(auto, unfolding(crate::specs::Making::delivery))]
    fn delivery(&self, words: &mut Pcg32) -> Choice
        ensures { (result, words.new) ≡ making.delivery self.now words.old }
    {
        if self.sent() == 0 {
            return self.keeping(Step::Nudge);
        }
        let luck = pick(words, 8);
        self.delivery_by(luck, words)
    }

    // Once in eight times any message comes, and once in eight times one is passed over.
    fn delivery_by(&self, luck: u32, words: &mut Pcg32) -> Choice
        requires { 1 ≤ making.sent self.now }
        ensures { (result, words.new) ≡ making.delivery_by self.now luck words.old }
    {
        match luck {
            0 => self.any_message(self.cursor(), words),
            1 => self.message_at(self.passing(), words),
            _ => self.message_at(self.cursor(), words),
        }
    }

    // The cursor behind a message that is passed over.
    fn passing(&self) -> u64
        ensures { result ≡ making.passing self.now }
    {
        let cursor = self.cursor();
        if cursor <= self.sent() {
            cursor + 1
        } else {
            cursor
        }
    }

    // The message at the cursor comes; behind the last one, any message.
    fn message_at(&self, cursor: u64, words: &mut Pcg32) -> Choice
        requires { 1 ≤ making.sent self.now }
        ensures { (result, words.new) ≡ making.message_at self.now cursor words.old }
    {
        if cursor <= self.sent() {
            return Choice {
                step: Step::Deliver { message: cursor },
                cursor: cursor + 1,
            };
        }
        self.any_message(cursor, words)
    }

    // Any message that was sent comes, maybe once more.
    fn any_message(&self, cursor: u64, words: &mut Pcg32) -> Choice
        requires { 1 ≤ making.sent self.now }
        ensures { (result, words.new) ≡ making.any_message self.now cursor words.old }
    {
        let message = pick_message(words, self.sent());
        Choice {
            step: Step::Deliver { message },
            cursor,
        }
    }

    // ---- orders

    // A client invokes a command, unless it waits for eight.
    fn invocation(&self, words: &mut Pcg32) -> Result<Choice, NoMemory>
        ensures { IfOk result (λ chosen. (chosen, words.new) ≡ making.invocation self.now words.old) }
    {
        let client = pick_to(words, self.plan().clients);
        if self.pending(client) >= MOST_PENDING {
            return Ok(self.delivery(words));
        }
        let command = Shared::of(self.alloc(), &made_command(words))?;
        Ok(self.keeping(Step::Invoke { client, command }))
    }

    // The least request that a client waits for is sent again, if there is one.
    fn retrial(&self, words: &mut Pcg32) -> Choice
        ensures { (result, words.new) ≡ making.retrial self.now words.old }
    {
        let client = pick_to(words, self.plan().clients);
        match self.least_pending(client) {
            None => self.delivery(words),
            Some(seq) => self.keeping(Step::Retry { client, seq }),
        }
    }

    // A client asks for the configuration.
    fn fetching(&self, words: &mut Pcg32) -> Choice
        ensures { (result, words.new) ≡ making.fetching self.now words.old }
    {
        let client = pick_to(words, self.plan().clients);
        self.keeping(Step::Fetch { client })
    }

    // A master sends its backups what they don't have.
    fn synchronization(&self, words: &mut Pcg32) -> Choice
        ensures { (result, words.new) ≡ making.ordering self.now Step.Sync words.old }
    {
        let master = pick_to(words, self.master_count());
        self.keeping(Step::Sync { master })
    }

    // A master tells its witnesses what they may drop.
    fn collection(&self, words: &mut Pcg32) -> Choice
        ensures { (result, words.new) ≡ making.ordering self.now Step.Collect words.old }
    {
        let master = pick_to(words, self.master_count());
        self.keeping(Step::Collect { master })
    }

    // A migration, once in eight times.
    fn migration(&self, words: &mut Pcg32) -> Choice
        ensures { (result, words.new) ≡ making.migration self.now words.old }
    {
        match pick(words, 8) {
            0 => self.moving(words),
            _ => self.delivery(words),
        }
    }

    // The hashes with a first byte go to a partition.
    fn moving(&self, words: &mut Pcg32) -> Choice
        ensures { (result, words.new) ≡ making.moving self.now words.old }
    {
        let lo = u64::from(pick(words, 256)) * HASHES_OF_BYTE;
        let to = pick_to(words, self.plan().parts);
        self.keeping(Step::Migrate {
            lo,
            hi: lo + (HASHES_OF_BYTE - 1),
            to,
        })
    }

    // A partition recovers from a backup and a witness.
    fn recovery(&self, words: &mut Pcg32) -> Choice
        ensures { (result, words.new) ≡ making.recovery self.now words.old }
    {
        let plan = self.plan();
        let part = pick_to(words, plan.parts);
        let backup = pick_to(words, plan.f);
        let witness = pick_to(words, plan.f);
        self.keeping(Step::Recover {
            part,
            backup,
            witness,
        })
    }
}
