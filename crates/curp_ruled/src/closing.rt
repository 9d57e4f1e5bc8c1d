ghost use Rattle.std.specs.Prelude.{◌≡◌, ◌≤◌, ◌<◌, ℕ, true, [], ◌∷◌, ◌++◌, map, length, slice_index_or};
ghost use Rattle.crossbeam_channel.specs.Claims.{view, IsSeatAt};
ghost use Rattle.crossbeam_channel.specs.Ends.{sends_on};
ghost use Rattle.curp_base.specs.Words.{At, IsPrefix};
ghost use Rattle.curp_ruled.specs.Ends.{AreAllOf, Posted};
ghost use Rattle.curp_ruled.specs.Rule.{of};

use crate::rule::{Closing, Hand, InOrder, Seating};
use crate::{Closed, Envelope, Post, Take};
use crossbeam_channel::{Pass, RuledSender};

/// Ends an inbox. What was taken of each sender is a prefix of what it sent: whole, once, and in its order. It takes no
/// memory.
pub fn close(posts: Vec<Post>, take: Take) -> Closed
    requires { AreAllOf take posts.items }
    ensures sent { result.sent ≡ map (λ (post : Posted). post.sent) posts.items }
    ensures taken { result.taken ≡ take.taken }
    ensures prefix { (k : ℕ) → k < take.posts → IsPrefix (of k result.taken) (slice_index_or result.sent k []) }
    ensures no_other { (k : ℕ) → take.posts ≤ k → of k result.taken ≡ [] }
{
    let Take {
        receiver: _,
        sender,
        mut pass,
        to: _,
        posts: _,
    } = take;
    leave_all(&sender, &mut pass, posts);
    sender.learn_as::<Closing>(&mut pass);
    Closed { pass }
}

/// Joins the passes of posts, which are of the numbers from 0 on.
fn leave_all(
    sender: &RuledSender<Envelope, Hand, InOrder>,
    pass: &mut Pass<Envelope, Hand>,
    posts: Vec<Post>,
)
    requires seated { IsSeatAt (sends_on sender.now) pass.old }
    requires takes { (view pass.old).takes ≡ true }
    requires none_left { (view pass.old).left ≡ [] }
    requires posts { (k : ℕ) (post : Posted) → At posts.items k post
        → (post.inbox ≡ sends_on sender.now) × (post.number ≡ k) }
    ensures seated { IsSeatAt (sends_on sender.now) pass.new }
    ensures left { view pass.new ≡ record (view pass.old) { left = map (λ (post : Posted). post.sent) posts.items } }
{
    for post in posts {
        leave(sender, pass, post);
    }
}

/// Joins the pass of the post of the next number.
fn leave(sender: &RuledSender<Envelope, Hand, InOrder>, pass: &mut Pass<Envelope, Hand>, post: Post)
    requires seated { IsSeatAt (sends_on sender.now) pass.old }
    requires takes { (view pass.old).takes ≡ true }
    requires inbox { post.inbox ≡ sends_on sender.now }
    requires next { post.number ≡ length (view pass.old).left }
    ensures seated { IsSeatAt (sends_on sender.now) pass.new }
    ensures left { view pass.new ≡ record (view pass.old) { left = (view pass.old).left ++ post.sent ∷ [] } }
{
    let Post {
        sender: _,
        pass: own,
        to: _,
        number: _,
    } = post;
    sender.absorb::<Seating>(pass, own);
}
