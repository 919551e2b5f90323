//! The tags of lines that wait for a reply, and of the calls that lines were given.
ghost use Rattle.std.specs.Prelude.{◌≡◌, ◌+◌, ◌-◌, ◌<◌, ◌≤◌, ◌^◌, if◌then◌else◌, is_ok, length, min, None, option_map, OnOk, vec_capacity, vec_len};
ghost use Rattle.exec_client.specs.Tags.{after_line_reply, after_notice, after_reply, call_limit, forgotten, kept, next_line, no_tags, tag_of_call, with_line};

use crate::kept_calls::{CALL_LIMIT, KeptCall, add_call, find_call};
use crate::waiting::{Waiting, take_first};
use exec_commands::Tag;
use exec_replies::LineReply;
use growth::{Grows, Refused};
use ocf_model::Reply;
use ocf_types::{CallId, Notice};
use std::alloc::Global;
use std::marker::Model;

/// The tags of lines that wait for a reply, and of the newest 16,384 calls that lines were given. Replies answer lines in the order in
/// which these were read. Memory is allocated when a line is read, and at no other time.
#[derive(Drop)]
pub struct Tags {
    waiting: Vec<Waiting>,
    // The number of lines without a tag that were read after the waiting ones.
    after: u64,
    // The number of all lines that wait.
    count: u64,
    // The tag of the line that is being answered.
    given: Option<Tag>,
    calls: Vec<KeptCall>,
}

impl Model for Tags {
    ghost use Rattle.std.specs.Prelude.{◌≡◌, ◌+◌, ◌≤◌, length, map, min, vec_capacity, vec_len};
    ghost use Rattle.exec_client.specs.Tags.{TagsView, call_limit};
    ghost use Rattle.exec_client.specs.Waiting.{call_tag, count_of, lines_in};

    ghost Value = { TagsView };

    ghost view = { λ t. record { lines = lines_in t.waiting.items t.after; given = t.given; calls = map call_tag t.calls.items } };

    ghost invariant = { λ t. (t.count ≡ length (lines_in t.waiting.items t.after))
        × (vec_len t.calls ≤ call_limit)
        × (min call_limit (vec_len t.calls + vec_len t.waiting + count_of t.given) ≤ vec_capacity t.calls) };
}

// Reserves memory for the tag of one more line, and for the calls that all lines may be given, also the one that is being answered.
fn reserve(waiting: &mut Vec<Waiting>, calls: &mut Vec<KeptCall>) -> Result<(), Refused>
    ensures waiting { waiting.new.items ≡ waiting.old.items }
    ensures calls { calls.new.items ≡ calls.old.items }
    ensures grows { vec_capacity calls.old ≤ vec_capacity calls.new }
    ensures line { OnOk result (vec_len waiting.new < vec_capacity waiting.new) }
    ensures room { OnOk result
        (min call_limit (vec_len calls.new + vec_len waiting.new + 2) ≤ vec_capacity calls.new) }
{
    Global::reserve(waiting, 1)?;
    let more = CALL_LIMIT
        .saturating_sub(calls.len())
        .min(waiting.len() + 2);
    Global::reserve(calls, more)
}

impl Tags {
    /// No line was read yet. Allocates nothing.
    pub fn new(alloc: Global) -> Tags
        ensures { result ≡ no_tags }
    {
        Tags {
            waiting: Vec::new(alloc),
            after: 0,
            count: 0,
            given: None,
            calls: Vec::new(alloc),
        }
    }

    /// A line was read, with this tag or with none. If memory is refused, the line counts as one without a tag. While 2^64 - 1 lines wait,
    /// nothing is noted.
    pub fn note(&mut self, tag: Option<Tag>) -> Result<(), Refused>
        ensures noted { self.new ≡ with_line (if is_ok result then tag else None) self.old }
    {
        if self.count == u64::MAX {
            return Ok(());
        }
        self.count += 1;
        let Some(tag) = tag else {
            self.after = self.after.saturating_add(1);
            return Ok(());
        };
        let reserved = reserve(&mut self.waiting, &mut self.calls);
        if reserved.is_err() {
            self.after = self.after.saturating_add(1);
            return reserved;
        }
        let before = self.after;
        self.waiting.push_reserved(Waiting { before, tag });
        self.after = 0;
        Ok(())
    }

    /// The oldest line that waits is now being answered, or no line if none waits.
    pub fn next(&mut self)
        ensures { self.new ≡ next_line self.old }
    {
        self.given = take_first(&mut self.waiting, &mut self.after);
        self.count = self.count.saturating_sub(1);
    }

    /// The tag of the line that is being answered.
    pub fn given(&self) -> Option<&str>
        ensures { option_map (λ tag. tag.now) result ≡ self.now.given }
    {
        match &self.given {
            Some(tag) => Some(tag.as_str()),
            None => None,
        }
    }

    // The line that is being answered was given this call.
    fn keep(&mut self, call: CallId)
        ensures { self.new ≡ kept call self.old }
    {
        let Some(tag) = self.given.take() else {
            return;
        };
        add_call(&mut self.calls, KeptCall { call, tag });
    }

    /// The line that is being answered has this reply. Its tag is kept for the call that the reply gives, if it gives one.
    pub fn keep_by(&mut self, reply: &Reply)
        ensures { self.new ≡ after_reply reply.now self.old }
    {
        if let Reply::Accepted { call, .. } = reply {
            self.keep(*call);
        }
    }

    /// The line that is being answered has this reply.
    pub fn keep_by_line(&mut self, reply: &LineReply)
        ensures { self.new ≡ after_line_reply reply.now self.old }
    {
        if let LineReply::Request(reply) = reply {
            self.keep_by(reply);
        }
    }

    /// The tag of a call, if one is kept.
    pub fn of_call(&self, call: CallId) -> Option<&str>
        ensures { option_map (λ tag. tag.now) result ≡ tag_of_call call self.now.calls }
    {
        match find_call(self.calls.as_slice(), call) {
            Some(kept) => Some(kept.tag.as_str()),
            None => None,
        }
    }

    // Forgets a call.
    fn forget(&mut self, call: CallId)
        ensures { self.new ≡ forgotten call self.old }
    {
        self.calls.retain(|kept| kept.call != call);
    }

    /// This notice was sent. A call is forgotten with its last notice.
    pub fn forget_by(&mut self, notice: &Notice)
        ensures { self.new ≡ after_notice notice.now self.old }
    {
        if notice.result.interval == 0 {
            self.forget(notice.result.call);
        }
    }
}
