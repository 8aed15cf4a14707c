//! What the roles of a session leave.
ghost use Rattle.std.specs.Prelude.{◌≡◌, ◌+◌, ◌≤◌, ◌++◌, ◌∷◌, [], length, option_to_list, true, vec_capacity, vec_len};
ghost use Rattle.onvm_session.specs.RoleStates.{keeps_of};

use crate::lists::Gathered;
use crate::role::Role;
use load_estimate::{Samples, Ticks};
use onvm_base::{ListOf, Posts, Records, SentFrames};
use rx_feed::Feed;
use std::alloc::Global;

/// The feeds and lists of the roles that have left so far.
#[derive(Drop)]
pub struct Leavings<I> {
    // With room for the feeds of those that haven't left yet.
    pub feeds: Vec<Feed<I>>,
    pub gathered: Gathered,
    pub samples: Samples,
    pub ticks: Ticks,
    // No memory was wanting for the lists.
    pub complete: bool,
}

// How often a core found an output ring full, and how many of its samples were lost. Other roles count
// neither.
fn counted<I, N>(role: &Role<I, N>) -> (u64, u64)
    ensures { (result.0 ≡ (keeps_of role.now).core.yields) × (result.1 ≡ (keeps_of role.now).core.lost) }
{
    match role {
        Role::Handle(core) => (core.yields, core.lost),
        Role::Receive(_) | Role::Send(_) | Role::Tick(_) => (0, 0),
    }
}

impl<I: Drop> Leavings<I> {
    ghost use Rattle.onvm_session.specs.Leaving.{HasLeft, HaveLeft, feeds_of};

    /// Of no role, with this list for feeds.
    pub fn make(alloc: Global, feeds: Vec<Feed<I>>) -> Leavings<I>
        ensures feeds { result.feeds ≡ feeds }
        ensures records { result.gathered.records.items ≡ [] }
        ensures sent { result.gathered.sent.items ≡ [] }
        ensures posts { result.gathered.posts.items ≡ [] }
        ensures yields { (result.gathered.yields ≡ 0) × (result.gathered.lost ≡ 0) }
        ensures told { (result.samples ≡ []) × (result.ticks ≡ []) }
        ensures complete { result.complete ≡ true }
    {
        Leavings {
            feeds,
            gathered: Gathered::make(alloc),
            samples: ListOf::make(alloc),
            ticks: ListOf::make(alloc),
            complete: true,
        }
    }

    /// One more role leaves.
    pub fn add<N: Drop>(&mut self, role: Role<I, N>)
        requires room { vec_len self.old.feeds + length (feeds_of (role ∷ [])) ≤ vec_capacity self.old.feeds }
        ensures left { HasLeft role self.old self.new }
    {
        let (yields, lost) = counted(&role);
        self.gathered.add_core(yields, lost);
        match role {
            Role::Receive(role) => {
                let kept = role.end();
                self.add_feed(kept.feed);
                self.add_feeder(kept.records, kept.sent, kept.posts);
            }
            Role::Send(role) => {
                let kept = role.end();
                self.add_feeder(kept.records, kept.sent, kept.posts);
            }
            Role::Handle(_role) => {}
            Role::Tick(role) => {
                let kept = role.end();
                self.samples = kept.samples;
                self.ticks = kept.ticks;
            }
        }
    }

    fn add_feed(&mut self, feed: Option<Feed<I>>)
        requires room { vec_len self.old.feeds + length (option_to_list feed) ≤ vec_capacity self.old.feeds }
        ensures feeds { self.new.feeds.items ≡ self.old.feeds.items ++ option_to_list feed }
        ensures room { vec_capacity self.new.feeds ≡ vec_capacity self.old.feeds }
        ensures same { self.new ≡ record self.old { feeds = self.new.feeds } }
    {
        if let Some(feed) = feed {
            self.feeds.push_reserved(feed);
        }
    }

    fn add_feeder(&mut self, records: Records, sent: SentFrames, posts: Posts)
        ensures feeds { self.new.feeds ≡ self.old.feeds }
        ensures complete { self.new.complete ≡ true → self.old.complete ≡ true }
        ensures records { self.new.complete ≡ true
            → self.new.gathered.records.items ≡ self.old.gathered.records.items ++ records }
        ensures sent { self.new.complete ≡ true
            → self.new.gathered.sent.items ≡ self.old.gathered.sent.items ++ sent }
        ensures posts { self.new.complete ≡ true
            → self.new.gathered.posts.items ≡ self.old.gathered.posts.items ++ posts }
        ensures counts { (self.new.gathered.yields ≡ self.old.gathered.yields)
            × (self.new.gathered.lost ≡ self.old.gathered.lost) }
        ensures told { (self.new.samples ≡ self.old.samples) × (self.new.ticks ≡ self.old.ticks) }
    {
        if self.gathered.add_feeder(records, sent, posts).is_err() {
            self.complete = false;
        }
    }

    /// All these roles leave, in order.
    pub fn add_all<N: Drop>(&mut self, roles: Vec<Role<I, N>>)
        requires room { vec_len self.old.feeds + length (feeds_of roles.items) ≤ vec_capacity self.old.feeds }
        ensures left { HaveLeft roles.items self.old self.new }
    {
        for role in roles {
            self.add(role);
        }
    }
}
