// What is drawn from a stream of random words.
ghost use Rattle.std.specs.Prelude.{IfOk, ◌≡◌, ◌≤◌, ◌<◌, ◌^◌, ℕ};
ghost use Rattle.curp_gen.specs.Draws as draws;

use curp_base::NoMemory;
use rand_core::utils::NextWord;
use rand_pcg::Pcg32;

/// The next word.
pub(crate) fn next_word(words: &mut Pcg32) -> u32
    ensures { (result, words.new) ≡ draws.next_word words.old }
{
    words.next_word()
}

/// A number below `n`. The word's remainder is taken, so that low numbers come a little more often where `n` is no
/// power of two.
pub(crate) fn pick(words: &mut Pcg32, n: u32) -> u32
    requires { 1 ≤ n }
    ensures picked { (result, words.new) ≡ draws.pick n words.old }
    ensures below { result < n }
{
    next_word(words) % n
}

/// A number from 1 to `n`.
pub(crate) fn pick_to(words: &mut Pcg32, n: u32) -> u32
    requires { 1 ≤ n }
    ensures picked { (result, words.new) ≡ draws.pick_to n words.old }
    ensures in_range { (1 ≤ result) × (result ≤ n) }
{
    1 + pick(words, n)
}

/// The number of one of so many messages, from 1 on. No message has a number past 2^32.
pub(crate) fn pick_message(words: &mut Pcg32, count: u64) -> u64
    requires { 1 ≤ count }
    ensures picked { (result, words.new) ≡ draws.pick_to count words.old }
    ensures in_range { (1 ≤ result) × (result ≤ count) }
{
    1 + u64::from(next_word(words)) % count
}

/// A generator whose next words are the same.
pub(crate) fn copy_of(words: &Pcg32) -> Result<Pcg32, NoMemory>
    ensures { IfOk result (λ copy. copy ≡ words.now) }
{
    Ok(words.clone()?)
}
